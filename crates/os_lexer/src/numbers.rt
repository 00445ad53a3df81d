//! The forms of numbers, their values, and the types that they may have.
ghost use Rattle.std.specs.Prelude.{◌≡◌, ◌≤◌, min};
ghost use Rattle.std.specs.List.{list_all};
ghost use Rattle.os_lexer.specs.Bytes.{is_digit};
ghost use Rattle.os_lexer.specs.Numbers.{is_octal_digit, is_hexadecimal_digit, is_decimal, digit_value, value_in, value_if_all, has_suffix};
ghost use Rattle.os_lexer.specs.Numbers.{plain_value, number_value, may_be_int, may_be_unsigned, value_after_zero, hexadecimal_value};
ghost use Rattle.os_lexer.specs.Reading.{capped};

/// One more than the greatest number: a value is read up to it.
const CAP: u64 = 1 << 32;

/// The value of a run that begins with a digit, if it is a number, but at most 4,294,967,296.
pub(crate) fn number_value(bytes: &[u8]) -> Option<u64>
    ensures { result ≡ capped (number_value bytes.now) }
{
    if has_suffix(bytes) {
        plain_value(&bytes[..bytes.len() - 1])
    } else {
        plain_value(bytes)
    }
}

/// Whether a number may be an `int`, where its value is one.
pub(crate) fn may_be_int(bytes: &[u8]) -> bool
    ensures { result ≡ may_be_int bytes.now }
{
    !has_suffix(bytes)
}

/// Whether a number may be an `unsigned`, where its value is one.
pub(crate) fn may_be_unsigned(bytes: &[u8]) -> bool
    ensures { result ≡ may_be_unsigned bytes.now }
{
    has_suffix(bytes) || !is_decimal(bytes)
}

/// Whether a run ends in the suffix of numbers that are `unsigned`.
fn has_suffix(bytes: &[u8]) -> bool
    ensures { result ≡ has_suffix bytes.now }
{
    matches!(bytes, [.., b'u' | b'U'])
}

/// Whether a number is decimal, and neither octal nor hexadecimal.
fn is_decimal(bytes: &[u8]) -> bool
    ensures { result ≡ is_decimal bytes.now }
{
    !matches!(bytes, [b'0', ..])
}

/// The value of a number without a suffix, if it is of a form.
fn plain_value(bytes: &[u8]) -> Option<u64>
    ensures { result ≡ capped (plain_value bytes.now) }
{
    match bytes {
        [] => None,
        [b'0', rest @ ..] => value_after_zero(rest),
        _ => decimal_value(bytes),
    }
}

/// The value of what follows a `0`.
fn value_after_zero(rest: &[u8]) -> Option<u64>
    ensures { result ≡ capped (value_after_zero rest.now) }
{
    match rest {
        [] => Some(0),
        [b'x' | b'X', digits @ ..] => hexadecimal_value(digits),
        _ => octal_value(rest),
    }
}

fn decimal_value(digits: &[u8]) -> Option<u64>
    ensures { result ≡ capped (value_if_all is_digit 10 digits.now) }
{
    if are_decimal(digits) {
        Some(value_in(10, digits))
    } else {
        None
    }
}

fn octal_value(digits: &[u8]) -> Option<u64>
    ensures { result ≡ capped (value_if_all is_octal_digit 8 digits.now) }
{
    if are_octal(digits) {
        Some(value_in(8, digits))
    } else {
        None
    }
}

fn hexadecimal_value(digits: &[u8]) -> Option<u64>
    ensures { result ≡ capped (hexadecimal_value digits.now) }
{
    match digits {
        [] => None,
        _ => all_hexadecimal_value(digits),
    }
}

fn all_hexadecimal_value(digits: &[u8]) -> Option<u64>
    ensures { result ≡ capped (value_if_all is_hexadecimal_digit 16 digits.now) }
{
    if are_hexadecimal(digits) {
        Some(value_in(16, digits))
    } else {
        None
    }
}

fn are_decimal(digits: &[u8]) -> bool
    ensures { result ≡ list_all is_digit digits.now }
{
    digits.iter().all(|digit| matches!(*digit, b'0'..=b'9'))
}

fn are_octal(digits: &[u8]) -> bool
    ensures { result ≡ list_all is_octal_digit digits.now }
{
    digits.iter().all(|digit| matches!(*digit, b'0'..=b'7'))
}

fn are_hexadecimal(digits: &[u8]) -> bool
    ensures { result ≡ list_all is_hexadecimal_digit digits.now }
{
    digits.iter().all(|digit| matches!(*digit, b'0'..=b'9' | b'A'..=b'F' | b'a'..=b'f'))
}

/// The number that the digits stand for, but at most 4,294,967,296.
#[tactic(auto, using(crate::proofs::Values::product_fits, crate::proofs::Values::value_in_more))]
fn value_in(base: u64, digits: &[u8]) -> u64
    requires low { 1 ≤ base }
    requires high { base ≤ 16 }
    ensures { result ≡ min (value_in base digits.now) 4294967296 }
{
    let mut value = 0;
    for digit in digits {
        value = (value * base + digit_value(*digit)).min(CAP);
    }
    value
}

/// What a digit counts.
fn digit_value(digit: u8) -> u64
    ensures value { result ≡ digit_value digit }
    ensures small { result ≤ 255 }
{
    match digit {
        0..b'A' => u64::from(digit.saturating_sub(b'0')),
        b'A'..b'a' => u64::from(digit - 55),
        _ => u64::from(digit - 87),
    }
}
