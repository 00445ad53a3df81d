//! Tables of words with what is said of them, and tokens by their places.

use os_lexer::{Kind, Token};

/// Words with what is said of each of them.
pub(crate) struct Row {
    pub(crate) words: &'static [&'static str],
    pub(crate) after: &'static str,
}

/// Whether some words have a word.
pub(crate) fn has(words: &[&str], word: &str) -> bool {
    for other in words {
        if *other == word {
            return true;
        }
    }
    false
}

/// What the first row says that has a word.
pub(crate) fn find(rows: &[Row], word: &str) -> Option<&'static str> {
    for row in rows {
        if has(row.words, word) {
            return Some(row.after);
        }
    }
    None
}

/// The kind of the token at a place.
pub(crate) fn kind_at(tokens: &[Token], place: usize) -> Option<Kind> {
    match tokens.get(place) {
        Some(token) => Some(token.kind),
        None => None,
    }
}
