ghost use Rattle.std.specs.Prelude.{◌≡◌, slice_index};
ghost use Rattle.os_lexer.specs.Bytes.{is_blank, is_line_feed, is_word_byte};
ghost use Rattle.os_lexer.specs.Reading.{class_of};

/// The classes of the bytes at which a form may begin.
#[derive(Clone, Copy)]
pub enum Class {
    White,
    Letter,
    Digit,
    Backslash,
    Slash,
    Hash,
    /// A byte at which marks begin, or no form.
    Other,
}

/// The class of a byte.
pub fn class_of(byte: u8) -> Class
    ensures { result ≡ class_of byte }
{
    match byte {
        b' ' | b'\t' | b'\r' | b'\n' | 11 | 12 => Class::White,
        b'A'..=b'Z' | b'a'..=b'z' | b'_' => Class::Letter,
        b'0'..=b'9' => Class::Digit,
        b'\\' => Class::Backslash,
        b'/' => Class::Slash,
        b'#' => Class::Hash,
        _ => Class::Other,
    }
}

/// Whether words and numbers are made of the byte: a letter, a digit or `_`.
pub fn is_word_byte(byte: u8) -> bool
    ensures { result ≡ is_word_byte byte }
{
    matches!(byte, b'A'..=b'Z' | b'a'..=b'z' | b'_' | b'0'..=b'9')
}

pub(crate) fn is_blank(byte: u8) -> bool
    ensures { result ≡ is_blank byte }
{
    byte == b' ' || byte == b'\t'
}

pub(crate) fn is_line_feed(byte: u8) -> bool
    ensures { result ≡ is_line_feed byte }
{
    byte == b'\n'
}

/// The byte at a point, or 0 past the end. No form of two bytes or more has a 0 behind its first.
pub(crate) fn byte_at(bytes: &[u8], point: usize) -> u8
    ensures { result ≡ slice_index bytes.now point }
{
    if point < bytes.len() { bytes[point] } else { 0 }
}
