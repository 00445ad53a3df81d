//! Where the tokens of a text stop being the front of any program.

ghost use Rattle.std.specs.Prelude.{◌≤◌, length};
ghost use Rattle.os_lexer.specs.Limits.{text_limit};

use crate::expected::expected;
use crate::open_part::open_part;
use os_io::Memory;
use os_lexer::{Kind, TEXT_LIMIT, Token, lex};
use os_parser::{ParseError, parse};
use oscheck_places::Spot;
use oscheck_sentences::{Word, missing, word_of, write_choice};
use std::alloc::Global;
use std::io;

/// What is told beside the token that was found: the words that could stand in its place, or, where C has such a token there and this
/// language hasn't, a sentence on that.
#[derive(Drop)]
enum Wanted {
    Expected(Vec<Word<'static>>),
    Missing(&'static str),
}

/// What is told of a text whose tokens mean no program.
#[derive(Drop)]
pub(crate) struct SyntaxError<'a> {
    spot: Spot,
    wanted: Wanted,
    /// The token that stands at the place, or that the text ends there.
    found: Word<'a>,
}

impl<'a> SyntaxError<'a> {
    /// Finds where a text stops whose tokens mean no program.
    pub(crate) fn find(alloc: Global, text: &'a [u8]) -> Result<SyntaxError<'a>, Memory>
        requires { length text.now ≤ text_limit }
    {
        match lex(alloc, text) {
            Ok(tokens) => stop_of(alloc, text, &tokens),
            Err(_) => Err(Memory),
        }
    }

    /// Which bytes of the text it is told of.
    pub(crate) fn spot(&self) -> Spot {
        self.spot
    }

    /// Writes what could stand there, or what is missing, and what stands there.
    pub(crate) fn write(&self, out: &mut impl io::Write) -> io::Result<()> {
        match &self.wanted {
            Wanted::Expected(words) => write_expected(out, words, self.found),
            Wanted::Missing(sentence) => write_missing(out, sentence, self.found),
        }
    }
}

/// Writes what could stand at a place, and what stands there.
fn write_expected(
    out: &mut impl io::Write,
    words: &[Word<'static>],
    found: Word<'_>,
) -> io::Result<()> {
    if !words.is_empty() {
        write!(out, "expected ")?;
        write_choice(out, words)?;
        write!(out, ", ")?;
    }
    write!(out, "found ")?;
    found.write(out)
}

/// Writes what stands at a place, and what is missing there.
fn write_missing(out: &mut impl io::Write, sentence: &str, found: Word<'_>) -> io::Result<()> {
    write!(out, "found ")?;
    found.write(out)?;
    write!(out, ": {sentence}")
}

/// What is told of the place where the tokens of a text stop being the front of any program.
fn stop_of<'a>(alloc: Global, text: &'a [u8], tokens: &[Token]) -> Result<SyntaxError<'a>, Memory>
    requires { length tokens.now ≤ text_limit }
{
    match parse(alloc, tokens) {
        Err(ParseError::Syntax { place, line }) => {
            let found = found_at(text, tokens, place as usize);
            let wanted = wanted_at(alloc, tokens, place as usize, found)?;
            let spot = spot_at(tokens, place as usize, line);
            Ok(SyntaxError {
                spot,
                wanted,
                found,
            })
        }
        _ => Err(Memory),
    }
}

/// What is told of a place beside the token that was found there.
fn wanted_at(
    alloc: Global,
    tokens: &[Token],
    place: usize,
    found: Word<'_>,
) -> Result<Wanted, Memory> {
    match missing_at(tokens, place, found) {
        Some(sentence) => Ok(Wanted::Missing(sentence)),
        None => Ok(Wanted::Expected(expected_at(alloc, tokens, place)?)),
    }
}

/// The sentence on the token at a place, where C has such a token there and this language hasn't.
fn missing_at(tokens: &[Token], place: usize, found: Word<'_>) -> Option<&'static str> {
    let token = tokens.get(place)?;
    let front = tokens.get(..place)?;
    match found {
        Word::Spelled(word) => missing(front, token.kind, word),
        Word::Plain(_) => missing(front, token.kind, ""),
    }
}

/// What could stand at a place.
fn expected_at(
    alloc: Global,
    tokens: &[Token],
    place: usize,
) -> Result<Vec<Word<'static>>, Memory> {
    match tokens.get(..place) {
        Some(front) => expected_behind(alloc, &open_part(alloc, front)?),
        None => Ok(Vec::new(alloc)),
    }
}

/// What could stand behind the open part of a front: nothing, where the part has as many tokens as a text may have bytes.
fn expected_behind(alloc: Global, open: &[Token]) -> Result<Vec<Word<'static>>, Memory> {
    if open.len() < TEXT_LIMIT {
        expected(alloc, open)
    } else {
        Ok(Vec::new(alloc))
    }
}

/// What stands at a place.
fn found_at<'a>(text: &'a [u8], tokens: &[Token], place: usize) -> Word<'a> {
    match tokens.get(place) {
        Some(token) => word_of(text, *token),
        None => Word::Plain("the end of the text"),
    }
}

/// The bytes of the token at a place. Where no token stands there, it is the empty spot behind the last one.
fn spot_at(tokens: &[Token], place: usize, line: u32) -> Spot {
    match tokens.get(place) {
        Some(token) => Spot::of_token(*token),
        None => {
            let end = last_end(tokens);
            Spot {
                line,
                start: end,
                end,
            }
        }
    }
}

/// Where the last token ends in its line.
fn last_end(tokens: &[Token]) -> usize {
    match tokens.last() {
        Some(token) if token.kind == Kind::PragmaEnd => token.start as usize,
        Some(token) => token.end as usize,
        None => 0,
    }
}
