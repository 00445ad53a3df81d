//! The lexeme of the text at a point: the longest form that stands there.
ghost use Rattle.std.specs.Prelude.{◌≡◌, ◌<◌, ◌≤◌, length, codes, IfSome};
ghost use Rattle.os_lexer.specs.Reading.{lexeme_at, joined_line_at, slash_at, comment_at, directive_at, named_directive};

use crate::bytes::{Class, byte_at, class_of};
use crate::form::{Form, Lexeme};
use crate::marks::mark_at;
use crate::scans::{blanks_end, comment_end, line_end, run_end};

/// The longest form at the front of the bytes.
#[tactic(auto, unfolding(crate::specs::Reading::lexeme_at))]
pub(crate) fn lexeme_at(bytes: &[u8]) -> Option<Lexeme>
    requires { 0 < length bytes.now }
    ensures { result ≡ lexeme_at bytes.now }
{
    match class_of(bytes[0]) {
        Class::White => Some(Lexeme {
            form: Form::Space,
            length: 1,
        }),
        Class::Letter => Some(Lexeme {
            form: Form::Word,
            length: run_end(bytes, 1),
        }),
        Class::Digit => Some(Lexeme {
            form: Form::Number,
            length: run_end(bytes, 1),
        }),
        Class::Backslash => joined_line_at(bytes),
        Class::Slash => slash_at(bytes),
        Class::Hash => directive_at(bytes),
        Class::Other => mark_at(bytes),
    }
}

/// The joined line that a backslash begins.
#[tactic(auto, unfolding(crate::specs::Reading::joined_line_at))]
fn joined_line_at(bytes: &[u8]) -> Option<Lexeme>
    ensures { result ≡ joined_line_at bytes.now }
{
    if byte_at(bytes, 1) == b'\n' {
        return Some(Lexeme {
            form: Form::JoinedLine,
            length: 2,
        });
    }
    if byte_at(bytes, 1) == b'\r' && byte_at(bytes, 2) == b'\n' {
        return Some(Lexeme {
            form: Form::JoinedLine,
            length: 3,
        });
    }
    None
}

/// The comment or the mark that a slash begins.
#[tactic(auto, unfolding(crate::specs::Reading::slash_at))]
fn slash_at(bytes: &[u8]) -> Option<Lexeme>
    requires { 0 < length bytes.now }
    ensures { result ≡ slash_at bytes.now }
{
    match byte_at(bytes, 1) {
        b'/' => Some(Lexeme {
            form: Form::LineComment,
            length: line_end(bytes, 2),
        }),
        b'*' => Some(comment_at(bytes)),
        _ => mark_at(bytes),
    }
}

/// The comment that a `/*` begins.
#[tactic(auto, unfolding(crate::specs::Reading::comment_at))]
fn comment_at(bytes: &[u8]) -> Lexeme
    requires { 2 ≤ length bytes.now }
    ensures { result ≡ comment_at bytes.now }
{
    let end = comment_end(bytes, 2);
    if end < bytes.len() {
        Lexeme {
            form: Form::BlockComment,
            length: end + 2,
        }
    } else {
        Lexeme {
            form: Form::OpenComment,
            length: bytes.len(),
        }
    }
}

/// The directive that a `#` begins, up to the end of its word, and of its line for `include`.
#[tactic(auto, unfolding(crate::specs::Reading::directive_at))]
fn directive_at(bytes: &[u8]) -> Option<Lexeme>
    requires { 0 < length bytes.now }
    ensures { result ≡ directive_at bytes.now }
{
    let name_at = blanks_end(bytes, 1);
    match class_of(byte_at(bytes, name_at)) {
        Class::Letter => Some(named_directive(bytes, name_at)),
        _ => None,
    }
}

#[tactic(auto, unfolding(crate::specs::Reading::named_directive))]
fn named_directive(bytes: &[u8], name_at: usize) -> Lexeme
    requires low { 1 ≤ name_at }
    requires within { name_at ≤ length bytes.now }
    ensures { result ≡ named_directive bytes.now name_at }
{
    let end = run_end(bytes, name_at);
    let name = &bytes[name_at..end];
    if name == b"pragma".as_slice() {
        Lexeme {
            form: Form::PragmaStart,
            length: end,
        }
    } else if name == b"include".as_slice() {
        Lexeme {
            form: Form::IncludeLine,
            length: line_end(bytes, end),
        }
    } else {
        Lexeme {
            form: Form::OtherDirective,
            length: end,
        }
    }
}
