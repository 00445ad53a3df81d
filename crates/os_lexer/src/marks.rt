//! The marks, longest first.
ghost use Rattle.std.specs.Prelude.{◌≡◌, ◌<◌, [], ◌∷◌, length};
ghost use Rattle.os_lexer.specs.Reading.{mark_at, mark_front, mark_of};

use crate::bytes::byte_at;
use crate::form::{Form, Lexeme};
use crate::token::Punct;

/// The longest mark at the front of the bytes.
#[tactic(auto, unfolding(crate::specs::Reading::mark_at))]
pub(crate) fn mark_at(bytes: &[u8]) -> Option<Lexeme>
    requires { 0 < length bytes.now }
    ensures { result ≡ mark_at bytes.now }
{
    if let Some(mark) = triple_mark(bytes) {
        return Some(Lexeme {
            form: Form::Mark(mark),
            length: 3,
        });
    }
    if let Some(mark) = pair_mark(bytes) {
        return Some(Lexeme {
            form: Form::Mark(mark),
            length: 2,
        });
    }
    if let Some(mark) = front_mark(bytes) {
        return Some(Lexeme {
            form: Form::Mark(mark),
            length: 1,
        });
    }
    None
}

/// The mark of three bytes at the front.
#[tactic(auto, using(crate::proofs::MarkSpellings::triples))]
fn triple_mark(bytes: &[u8]) -> Option<Punct>
    requires { 0 < length bytes.now }
    ensures { result ≡ mark_front bytes.now 3 }
{
    let first = bytes[0];
    if byte_at(bytes, 1) == first && byte_at(bytes, 2) == b'=' {
        shift_set_mark(first)
    } else {
        None
    }
}

/// The mark of two bytes at the front.
#[tactic(auto, using(crate::proofs::MarkSpellings::pairs))]
fn pair_mark(bytes: &[u8]) -> Option<Punct>
    requires { 0 < length bytes.now }
    ensures { result ≡ mark_front bytes.now 2 }
{
    let first = bytes[0];
    let second = byte_at(bytes, 1);
    if second == b'=' {
        set_mark(first)
    } else if second == first {
        doubled_mark(first)
    } else {
        None
    }
}

/// The mark of one byte at the front.
#[tactic(auto, using(crate::proofs::MarkSpellings::singles))]
fn front_mark(bytes: &[u8]) -> Option<Punct>
    requires { 0 < length bytes.now }
    ensures { result ≡ mark_front bytes.now 1 }
{
    single_mark(bytes[0])
}

/// The mark of a byte twice and `=`.
#[tactic(auto, unfolding(crate::specs::Reading::mark_of))]
fn shift_set_mark(byte: u8) -> Option<Punct>
    ensures { result ≡ mark_of (byte ∷ byte ∷ 61 ∷ []) }
{
    match byte {
        b'<' => Some(Punct::ShiftLeftSet),
        b'>' => Some(Punct::ShiftRightSet),
        _ => None,
    }
}

/// The mark of a byte and `=`.
#[tactic(auto, unfolding(crate::specs::Reading::mark_of))]
fn set_mark(byte: u8) -> Option<Punct>
    ensures { result ≡ mark_of (byte ∷ 61 ∷ []) }
{
    match byte {
        b'+' => Some(Punct::AddSet),
        b'-' => Some(Punct::SubtractSet),
        b'*' => Some(Punct::MultiplySet),
        b'/' => Some(Punct::DivideSet),
        b'%' => Some(Punct::RemainderSet),
        b'&' => Some(Punct::BitAndSet),
        b'^' => Some(Punct::BitXorSet),
        b'|' => Some(Punct::BitOrSet),
        b'<' => Some(Punct::LessEqual),
        b'>' => Some(Punct::GreaterEqual),
        b'=' => Some(Punct::Equal),
        b'!' => Some(Punct::Unequal),
        _ => None,
    }
}

/// The mark of a byte twice.
#[tactic(auto, unfolding(crate::specs::Reading::mark_of))]
fn doubled_mark(byte: u8) -> Option<Punct>
    ensures { result ≡ mark_of (byte ∷ byte ∷ []) }
{
    match byte {
        b'+' => Some(Punct::Up),
        b'-' => Some(Punct::Down),
        b'<' => Some(Punct::ShiftLeft),
        b'>' => Some(Punct::ShiftRight),
        b'=' => Some(Punct::Equal),
        b'&' => Some(Punct::And),
        b'|' => Some(Punct::Or),
        _ => None,
    }
}

/// The mark of one byte.
#[tactic(auto, unfolding(crate::specs::Reading::mark_of))]
pub fn single_mark(byte: u8) -> Option<Punct>
    ensures { result ≡ mark_of (byte ∷ []) }
{
    match byte {
        b'+' => Some(Punct::Plus),
        b'-' => Some(Punct::Minus),
        b'*' => Some(Punct::Star),
        b'/' => Some(Punct::Slash),
        b'%' => Some(Punct::Percent),
        b'<' => Some(Punct::Less),
        b'>' => Some(Punct::Greater),
        b'=' => Some(Punct::Set),
        b'&' => Some(Punct::BitAnd),
        b'^' => Some(Punct::BitXor),
        b'|' => Some(Punct::BitOr),
        b'!' => Some(Punct::Not),
        b'~' => Some(Punct::Invert),
        b'?' => Some(Punct::Question),
        b':' => Some(Punct::Colon),
        b';' => Some(Punct::Semicolon),
        b',' => Some(Punct::Comma),
        b'(' => Some(Punct::OpenParen),
        b')' => Some(Punct::CloseParen),
        b'[' => Some(Punct::OpenBracket),
        b']' => Some(Punct::CloseBracket),
        b'{' => Some(Punct::OpenBrace),
        b'}' => Some(Punct::CloseBrace),
        _ => None,
    }
}
