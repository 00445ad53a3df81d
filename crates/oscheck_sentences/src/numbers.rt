//! What is said of a run of letters, digits and `_` that begins with a digit and is no number.

use crate::sentences::{Sentence, of, plain};

/// Whether all bytes are decimal digits.
fn are_digits(bytes: &[u8]) -> bool {
    bytes.iter().all(|byte| byte.is_ascii_digit())
}

/// Some bytes without the letters of a suffix at their end.
fn without_suffix(bytes: &[u8]) -> &[u8] {
    match bytes {
        [front @ .., b'u' | b'U' | b'l' | b'L'] => without_last_of_suffix(front),
        _ => bytes,
    }
}

/// Some bytes without two more letters of a suffix.
fn without_last_of_suffix(bytes: &[u8]) -> &[u8] {
    match bytes {
        [
            front @ ..,
            b'u' | b'U' | b'l' | b'L',
            b'u' | b'U' | b'l' | b'L',
        ] => front,
        [front @ .., b'u' | b'U' | b'l' | b'L'] => front,
        _ => bytes,
    }
}

/// Whether the bytes are digits with a suffix of C's that isn't here.
fn has_suffix(bytes: &[u8]) -> bool {
    let digits = without_suffix(bytes);
    digits.len() < bytes.len() && are_digits(digits)
}

/// What is said of such a run that is no number.
pub(crate) fn of_digits(bytes: &[u8]) -> Sentence {
    match bytes {
        [b'0', b'b' | b'B', ..] => plain(
            "there are no binary numbers: write 0x and hexadecimal digits, as 0xF for 0b1111",
        ),
        [b'0', b'x' | b'X', ..] => of(
            " is no hexadecimal number: behind 0x stand digits and letters from a to f, and u at most",
        ),
        _ if has_suffix(bytes) => of(" has a suffix that isn't here: a number ends in u at most"),
        [b'0', ..] if are_digits(bytes) => of(
            " begins with 0, so that it is octal, with digits from 0 to 7: leave the 0 out",
        ),
        _ => of(
            " is no number, and a name begins with a letter or _: take out what is no digit, or put a letter before it",
        ),
    }
}
