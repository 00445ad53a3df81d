//! Numbers whose digits are octal.

ghost use Rattle.std.specs.Prelude.{◌≡◌, ◌+◌, ◌≤◌, ◌↔◌, ℕ, IsTrue, Some};
ghost use Rattle.std.specs.List.{slice_get};
ghost use Rattle.oscheck_warnings.specs.Octal.{IsValued, IsOctal};

use os_lexer::{Kind, Token};

/// Whether a token is a number other than 0.
fn is_valued(token: Token) -> bool
    ensures { IsTrue result ↔ IsValued token }
{
    match token.kind {
        Kind::Number(number) | Kind::Wide(number) => number > 0,
        _ => false,
    }
}

/// Whether the byte at a point is `0`.
fn is_zero_at(text: &[u8], point: usize) -> bool
    ensures { IsTrue result ↔ (slice_get text.now point ≡ Some 48) }
{
    match text.get(point) {
        Some(byte) => *byte == 48,
        None => false,
    }
}

/// Whether the byte at a point is a digit.
fn is_digit_at(text: &[u8], point: usize) -> bool
    ensures { IsTrue result ↔ ((digit : ℕ) × (slice_get text.now point ≡ Some digit) × (48 ≤ digit) × (digit ≤ 57)) }
{
    match text.get(point) {
        Some(byte) => 48 <= *byte && *byte <= 57,
        None => false,
    }
}

/// Whether a token of a text is a number other than 0 whose digits are octal, since it begins with 0.
pub fn is_octal(text: &[u8], token: Token) -> bool
    ensures { IsTrue result ↔ IsOctal text.now token }
{
    is_valued(token)
        && is_zero_at(text, token.start as usize)
        && is_digit_at(text, token.start as usize + 1)
}
