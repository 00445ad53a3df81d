//! A word of a sentence about tokens.

use os_lexer::{Kind, Token};
use std::io;

/// A word for a token, or for one of several.
#[derive(Clone, Copy)]
pub enum Word<'a> {
    /// A word of English, as `a name`.
    Plain(&'a str),
    /// The token as it is spelled.
    Spelled(&'a str),
}

impl<'a> Word<'a> {
    /// Writes the word: a spelled token stands in quotes.
    pub fn write(self, out: &mut impl io::Write) -> io::Result<()> {
        match self {
            Word::Plain(word) => write!(out, "{word}"),
            Word::Spelled(word) => write!(out, "'{word}'"),
        }
    }
}

/// The word for a token of a text.
pub fn word_of<'a>(text: &'a [u8], token: Token) -> Word<'a> {
    if token.kind == Kind::PragmaEnd {
        return Word::Plain("the end of the line");
    }
    match spelling(text, token) {
        Some(word) => Word::Spelled(word),
        None => Word::Plain("a token"),
    }
}

/// How a token of a text is spelled.
fn spelling<'a>(text: &'a [u8], token: Token) -> Option<&'a str> {
    let bytes = text.get(token.start as usize..token.end as usize)?;
    str::from_utf8(bytes).ok()
}

/// Writes words as a choice: `a`, `a or b`, `a, b or c`.
pub fn write_choice(out: &mut impl io::Write, words: &[Word<'_>]) -> io::Result<()> {
    let mut left = words.len();
    for word in words {
        word.write(out)?;
        left = left.saturating_sub(1);
        match left {
            0 => {}
            1 => write!(out, " or ")?,
            _ => write!(out, ", ")?,
        }
    }
    Ok(())
}
