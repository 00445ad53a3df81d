//! How the front of a text goes on to a program. No grammar stands here: each token is asked for of the reader of programs.
//!
//! What is closed in the front is left out. Behind the rest that token is put, again and again, that comes first in `CLOSERS`
//! among those that could come, until the tokens are a program's. What closes comes before what opens, so that little more is
//! put there than what is open, and at most `MOST` tokens. For each of them the open part is read once for the end and once
//! for each token that is tried, and the text with what is put behind it twice in all: so the time is linear in the text,
//! with a factor that grows with what is open.

ghost use Rattle.std.specs.Prelude.{◌≡◌, ◌+◌, ◌++◌, ◌≤◌, ℕ, IsTrue, length, take, IfOk, IfSome};
ghost use Rattle.front_end.specs.Texts.{IsProgramOf};
ghost use Rattle.os_ast.specs.Fronts.{IsRefusedAt};
ghost use Rattle.os_ast.specs.Trees.{ProgramTree};
ghost use Rattle.os_lexer.specs.Cover.{IsTokenCover};
ghost use Rattle.os_lexer.specs.Limits.{text_limit};
ghost use Rattle.oscheck.specs.Completions.{IsCompletion, last_end};

use crate::expected::{goes_on, is_whole};
use crate::open_part::open_part;
use os_io::Memory;
use os_lexer::names::{INPUT, OMP, OSIN, STREAM, TASKWAIT};
use os_lexer::{Key, Kind, LexError, Punct, TEXT_LIMIT, Token, lex};
use os_parser::{ParseError, parse};
use std::alloc::Global;

/// How many tokens are put behind a front at most. What is open is at most 200 deep, and no part of it needs more than two
/// tokens but the innermost ones.
const MOST: usize = 1_000;

/// A token that may be put behind a front, with what stands for it in a text.
#[derive(Clone, Copy)]
struct Closer {
    spelling: &'static str,
    kind: Kind,
}

/// The tokens that may be put behind a front, the first of those that could come before the others.
static CLOSERS: [Closer; 19] = [
    Closer {
        spelling: " )",
        kind: Kind::Punct(Punct::CloseParen),
    },
    Closer {
        spelling: " ]",
        kind: Kind::Punct(Punct::CloseBracket),
    },
    Closer {
        spelling: " }",
        kind: Kind::Punct(Punct::CloseBrace),
    },
    Closer {
        spelling: " ;",
        kind: Kind::Punct(Punct::Semicolon),
    },
    Closer {
        spelling: " :",
        kind: Kind::Punct(Punct::Colon),
    },
    Closer {
        spelling: " 0",
        kind: Kind::Number(0),
    },
    Closer {
        spelling: "\n",
        kind: Kind::PragmaEnd,
    },
    Closer {
        spelling: " ++",
        kind: Kind::Punct(Punct::Up),
    },
    Closer {
        spelling: " (",
        kind: Kind::Punct(Punct::OpenParen),
    },
    Closer {
        spelling: " {",
        kind: Kind::Punct(Punct::OpenBrace),
    },
    Closer {
        spelling: " =",
        kind: Kind::Punct(Punct::Set),
    },
    Closer {
        spelling: " >>",
        kind: Kind::Punct(Punct::ShiftRight),
    },
    Closer {
        spelling: " <<",
        kind: Kind::Punct(Punct::ShiftLeft),
    },
    Closer {
        spelling: " osin",
        kind: Kind::Name(OSIN),
    },
    Closer {
        spelling: " int",
        kind: Kind::Key(Key::Int),
    },
    Closer {
        spelling: " omp",
        kind: Kind::Name(OMP),
    },
    Closer {
        spelling: " taskwait",
        kind: Kind::Name(TASKWAIT),
    },
    Closer {
        spelling: " input",
        kind: Kind::Name(INPUT),
    },
    Closer {
        spelling: " stream",
        kind: Kind::Name(STREAM),
    },
];

/// A program that begins as a text does that is refused as none: with all bytes up to the end of the last token before the
/// place of the refusal. There is none where the text is no such text, where none of at most 262,144 bytes is found, and
/// where none is found by `MOST` tokens.
pub(crate) fn completion(alloc: Global, text: &[u8]) -> Result<Option<Vec<u8>>, Memory>
    requires { length text.now ≤ text_limit }
    ensures { IfOk result (λ found. IfSome found (λ whole. IsCompletion text.now whole.items)) }
{
    match lex(alloc, text) {
        Ok(tokens) => of_tokens(alloc, text, &tokens),
        Err(LexError::Memory) => Err(Memory),
        Err(_) => Ok(None),
    }
}

/// A program that begins as a text with these tokens does.
fn of_tokens(alloc: Global, text: &[u8], tokens: &[Token]) -> Result<Option<Vec<u8>>, Memory>
    requires cover { IsTokenCover text.now tokens.now }
    requires few { length tokens.now ≤ text_limit }
    ensures { IfOk result (λ found. IfSome found (λ whole. IsCompletion text.now whole.items)) }
{
    match parse(alloc, tokens) {
        Ok(_) => Ok(None),
        Err(ParseError::Syntax { place, .. }) => at_place(alloc, text, tokens, place as usize),
        Err(ParseError::Memory) => Err(Memory),
    }
}

/// A program that begins as a text does that is refused at a place.
fn at_place(
    alloc: Global,
    text: &[u8],
    tokens: &[Token],
    place: usize,
) -> Result<Option<Vec<u8>>, Memory>
    requires cover { IsTokenCover text.now tokens.now }
    requires few { length tokens.now ≤ text_limit }
    requires refused { (line : ℕ) × IsRefusedAt tokens.now place line }
    ensures { IfOk result (λ found. IfSome found (λ whole. IsCompletion text.now whole.items)) }
{
    let front = &tokens[..place];
    let open = open_part(alloc, front)?;
    let more = closing(alloc, &open)?;
    program_of(alloc, begun(text, front), &more)
}

/// The bytes of a text up to the end of some of its tokens.
fn begun<'a>(text: &'a [u8], front: &[Token]) -> &'a [u8]
    ensures { result.now ≡ take (last_end front.now) text.now }
{
    match text.get(..last_end(front)) {
        Some(begun) => begun,
        None => text,
    }
}

/// Where the last of some tokens ends.
fn last_end(front: &[Token]) -> usize
    ensures { result ≡ last_end front.now }
{
    match front.last() {
        Some(token) => token.end as usize,
        None => 0,
    }
}

/// The bytes with more behind them, where that is the text of a program.
fn program_of(alloc: Global, begun: &[u8], more: &[u8]) -> Result<Option<Vec<u8>>, Memory>
    ensures begins { IfOk result (λ found. IfSome found (λ whole. whole.items ≡ begun.now ++ more.now)) }
    ensures means { IfOk result (λ found. IfSome found (λ whole. (p : ProgramTree) × IsProgramOf whole.items p)) }
{
    let mut text = Vec::from_slice(alloc, begun)?;
    text.extend_from_slice(more)?;
    if is_program(alloc, &text)? {
        Ok(Some(text))
    } else {
        Ok(None)
    }
}

/// Whether a text means a program.
fn is_program(alloc: Global, text: &[u8]) -> Result<bool, Memory>
    ensures { IfOk result (λ is. IsTrue is → (p : ProgramTree) × IsProgramOf text.now p) }
{
    if text.len() > TEXT_LIMIT {
        return Ok(false);
    }
    match lex(alloc, text) {
        Ok(tokens) => is_whole(alloc, &tokens),
        Err(LexError::Memory) => Err(Memory),
        Err(_) => Ok(false),
    }
}

/// What is put behind the front of a program, as it stands in a text.
fn closing(alloc: Global, front: &[Token]) -> Result<Vec<u8>, Memory> {
    let mut tokens = Vec::from_slice(alloc, front)?;
    let mut more = Vec::new(alloc);
    if tokens
        .last()
        .is_some_and(|token| token.kind == Kind::PragmaEnd)
    {
        add(&mut more, "\n")?;
    }
    for _ in 0..MOST {
        match next(alloc, &tokens)? {
            Some(closer) => put(&mut tokens, &mut more, closer)?,
            None => break,
        }
    }
    add(&mut more, "\n")?;
    Ok(more)
}

/// The token that is put next behind the front of a program. There is none where the front is a whole program, or has as many tokens
/// as a text may have bytes.
fn next(alloc: Global, front: &[Token]) -> Result<Option<Closer>, Memory> {
    if front.len() >= TEXT_LIMIT || is_whole(alloc, front)? {
        return Ok(None);
    }
    first_closer(alloc, front)
}

/// The first of the closers that could come behind the front of a program.
fn first_closer(alloc: Global, front: &[Token]) -> Result<Option<Closer>, Memory>
    requires { length front.now + 1 ≤ text_limit }
{
    for closer in &CLOSERS {
        if goes_on(alloc, front, token_of(*closer))? {
            return Ok(Some(*closer));
        }
    }
    Ok(None)
}

/// The token of a closer, which stands in no text.
fn token_of(closer: Closer) -> Token {
    Token {
        kind: closer.kind,
        start: 0,
        end: 0,
        line: 0,
    }
}

/// Puts a token behind others, and its spelling behind theirs.
fn put(tokens: &mut Vec<Token>, more: &mut Vec<u8>, closer: Closer) -> Result<(), Memory> {
    if tokens.push(token_of(closer)).is_err() {
        return Err(Memory);
    }
    add(more, closer.spelling)
}

/// Adds a text.
fn add(more: &mut Vec<u8>, text: &str) -> Result<(), Memory> {
    Ok(more.extend_from_slice(text.as_bytes())?)
}
