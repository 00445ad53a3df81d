//! The token that a sentence about a rule speaks of.

use crate::name_uses::Use;
use crate::word::Word;
use crate::words::kind_at;
use os_lexer::{Kind, Token};

/// A token of a text, or the place behind all of them.
#[derive(Clone, Copy)]
pub struct At<'a> {
    pub word: Word<'a>,
    pub tokens: &'a [Token],
    /// Where each name stands and what it means.
    pub uses: &'a [Use],
    /// Its place among the tokens.
    pub place: usize,
}

impl<'a> At<'a> {
    /// The kind of the token.
    pub(crate) fn kind(&self) -> Option<Kind> {
        kind_at(self.tokens, self.place)
    }

    /// The kind of the token that stands so far behind it.
    pub(crate) fn kind_behind(&self, distance: usize) -> Option<Kind> {
        kind_at(self.tokens, self.place.saturating_add(distance))
    }

    /// The kind of the token before it.
    pub(crate) fn kind_before(&self) -> Option<Kind> {
        kind_at(self.tokens, self.place.checked_sub(1)?)
    }

    /// Where the name stands, and what it means.
    pub(crate) fn usage(&self) -> Use {
        self.usage_behind(0)
    }

    /// The same of the name that stands so far behind it.
    pub(crate) fn usage_behind(&self, distance: usize) -> Use {
        use_at(self.uses, self.place.saturating_add(distance))
    }

    /// The same of the name that stands so far before it.
    pub(crate) fn usage_before(&self, distance: usize) -> Use {
        match self.place.checked_sub(distance) {
            Some(place) => use_at(self.uses, place),
            None => Use::nothing(),
        }
    }
}

/// Where the name at a place stands, and what it means.
fn use_at(uses: &[Use], place: usize) -> Use {
    match uses.get(place) {
        Some(usage) => *usage,
        None => Use::nothing(),
    }
}
