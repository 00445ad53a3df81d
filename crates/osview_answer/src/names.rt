ghost use Rattle.std.specs.Prelude.{◌≡◌, ◌≤◌, ◌++◌, IfOk, OnOk, length, slice_get};
ghost use Rattle.os_lexer.specs.Cover.{IsTokenCover};
ghost use Rattle.os_lexer.specs.Limits.{text_limit};
ghost use Rattle.osview_answer.specs.StreamNames.{named_by, named_in, stream_names};

use os_ast::{Resolved, What};
use os_io::Memory;
use os_lexer::{Token, lex};
use osview_sentences::StreamName;
use std::alloc::Global;

/// The tokens of a text that was accepted. It has tokens, so that an error is want of memory.
pub(crate) fn tokens_of(alloc: Global, text: &[u8]) -> Result<Vec<Token>, Memory>
    requires { length text.now ≤ text_limit }
    ensures { IfOk result (λ tokens. IsTokenCover text.now tokens.items) }
{
    match lex(alloc, text) {
        Ok(tokens) => Ok(tokens),
        Err(_) => Err(Memory),
    }
}

/// The token at a place.
fn token_at(tokens: &[Token], place: u32) -> Option<Token>
    ensures { result ≡ slice_get tokens.now place }
{
    tokens.get(place as usize).copied()
}

/// Adds the name of the `count` streams from `first` on, where there is its token.
fn add_token(
    found: &mut Vec<StreamName>,
    first: u32,
    count: u32,
    token: Option<Token>,
) -> Result<(), Memory>
    ensures { OnOk result (found.new.items ≡ found.old.items ++ named_by first count token) }
{
    let Some(token) = token else {
        return Ok(());
    };
    found.push(StreamName {
        first,
        count,
        start: token.start,
        end: token.end,
    })?;
    Ok(())
}

/// Adds a name, where it means a stream or an array of streams.
fn add_name(found: &mut Vec<StreamName>, tokens: &[Token], name: Resolved) -> Result<(), Memory>
    ensures { OnOk result (found.new.items ≡ found.old.items ++ named_in tokens.now name) }
{
    match name.what {
        What::Stream { first, count } => {
            add_token(found, first, count, token_at(tokens, name.place))
        }
        _ => Ok(()),
    }
}

/// The names that mean streams, by what each name of a program means, in the order of the text.
pub(crate) fn stream_names(
    alloc: Global,
    tokens: &[Token],
    names: &[Resolved],
) -> Result<Vec<StreamName>, Memory>
    ensures { IfOk result (λ found. found.items ≡ stream_names tokens.now names.now) }
{
    let mut found = Vec::new(alloc);
    for name in names {
        add_name(&mut found, tokens, *name)?;
    }
    Ok(found)
}
