//! What could stand at a place of a text. No grammar stands here: each token is asked for of the reader of programs.

ghost use Rattle.std.specs.Prelude.{◌+◌, ◌≤◌, IsTrue, IfOk, length};
ghost use Rattle.os_ast.specs.Means.{Means};
ghost use Rattle.os_ast.specs.Trees.{ProgramTree};
ghost use Rattle.os_lexer.specs.Limits.{text_limit};

use os_io::Memory;
use os_lexer::names::STREAM;
use os_lexer::{Kind, TEXT_LIMIT, Token, lex};
use os_parser::{ParseError, is_front, parse};
use oscheck_sentences::{Word, word_of};
use std::alloc::Global;

/// How many words are told at most.
const MOST: usize = 12;

/// Tokens that are told by one word where each of them could come.
struct Group {
    word: &'static str,
    tokens: &'static str,
}

/// The groups, in the order in which they are told. A token is told by the first of its groups that is told.
static GROUPS: [Group; 5] = [
    Group {
        word: "a statement",
        tokens: "; { ++ -- if while for break continue return name omp task tick taskwait input output firstprivate stream\n#pragma",
    },
    Group {
        word: "an expression",
        tokens: "0 ( - + ! ~ name omp task tick taskwait input output firstprivate stream",
    },
    Group {
        word: "a name",
        tokens: "name omp task tick taskwait input output firstprivate stream",
    },
    Group {
        word: "an operator",
        tokens: "|| && | ^ & == != < <= > >= << >> + - * / %",
    },
    Group {
        word: "an assigning operator",
        tokens: "= += -= *= /= %= <<= >>= &= ^= |=",
    },
];

/// A text with each token that programs have, in the order in which those are told that stand in no group.
const TOKENS: &str =
    "; , ) ] } ( [ { = ? : int unsigned const void if else while for break continue return __attribute__ 0 - + ! ~ ++ -- \
     || && | ^ & == != < <= > >= << >> * / % += -= *= /= %= <<= >>= &= ^= |= \
     name omp task tick taskwait input output firstprivate stream\n#pragma";

/// The tokens of such a text.
fn tokens_of(alloc: Global, text: &str) -> Result<Vec<Token>, Memory> {
    if text.len() > TEXT_LIMIT {
        return Err(Memory);
    }
    match lex(alloc, text.as_bytes()) {
        Ok(tokens) => Ok(tokens),
        Err(_) => Err(Memory),
    }
}

/// Whether some program begins with the tokens and one more.
pub(crate) fn goes_on(alloc: Global, front: &[Token], token: Token) -> Result<bool, Memory>
    requires { length front.now + 1 ≤ text_limit }
{
    let mut tokens = Vec::from_slice(alloc, front)?;
    if tokens.push(token).is_err() {
        return Err(Memory);
    }
    is_front(alloc, &tokens)
}

/// Whether two kinds are one for the grammar: but for the words of pragmas, all names are.
fn is_like(kind: Kind, other: Kind) -> bool {
    match (kind, other) {
        (Kind::Name(id), Kind::Name(other)) => id == other || (STREAM < id && STREAM < other),
        _ => kind == other,
    }
}

/// Whether a token of the kind is among some.
fn has(tokens: &[Token], kind: Kind) -> bool {
    tokens.iter().any(|token| is_like(token.kind, kind))
}

/// Whether the group is told: each of its tokens could come.
fn is_told(group: &[Token], could: &[Token]) -> bool {
    group.iter().all(|token| token.kind == Kind::PragmaEnd || has(could, token.kind))
}

/// The word for a token that could come.
fn single(token: Token) -> Word<'static> {
    match token.kind {
        Kind::Number(_) | Kind::Wide(_) => Word::Plain("a number"),
        _ => word_of(TOKENS.as_bytes(), token),
    }
}

/// The tokens that could come behind the front of a program.
fn candidates(alloc: Global, front: &[Token]) -> Result<Vec<Token>, Memory>
    requires { length front.now + 1 ≤ text_limit }
{
    let tokens = tokens_of(alloc, TOKENS)?;
    let mut could = Vec::new(alloc);
    for token in &tokens {
        if goes_on(alloc, front, *token)? && could.push(*token).is_err() {
            return Err(Memory);
        }
    }
    Ok(could)
}

/// Whether the tokens mean a program, so that the text could end.
pub(crate) fn is_whole(alloc: Global, tokens: &[Token]) -> Result<bool, Memory>
    requires { length tokens.now ≤ text_limit }
    ensures { IfOk result (λ whole. IsTrue whole → (p : ProgramTree) × Means tokens.now p) }
{
    match parse(alloc, tokens) {
        Ok(_) => Ok(true),
        Err(ParseError::Syntax { .. }) => Ok(false),
        Err(ParseError::Memory) => Err(Memory),
    }
}

/// The words for what could come behind the front of a program, at most a dozen.
pub(crate) fn expected(alloc: Global, front: &[Token]) -> Result<Vec<Word<'static>>, Memory>
    requires { length front.now + 1 ≤ text_limit }
{
    let mut could = candidates(alloc, front)?;
    let mut words = Vec::new(alloc);
    for group in &GROUPS {
        let tokens = tokens_of(alloc, group.tokens)?;
        if is_told(&tokens, &could) {
            could.retain(|token| !has(&tokens, token.kind));
            push(&mut words, Word::Plain(group.word))?;
        }
    }
    for token in &could {
        push(&mut words, single(*token))?;
    }
    if is_whole(alloc, front)? {
        push(&mut words, Word::Plain("the end of the text"))?;
    }
    words.truncate(MOST);
    Ok(words)
}

/// Adds a word.
fn push(words: &mut Vec<Word<'static>>, word: Word<'static>) -> Result<(), Memory> {
    match words.push(word) {
        Ok(()) => Ok(()),
        Err(_) => Err(Memory),
    }
}
