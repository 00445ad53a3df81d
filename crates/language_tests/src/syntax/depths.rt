//! How deep a program may be, and that the stack holds it.

use super::{read, token};
use os_lexer::{Key, Kind, Punct, Token, lex};
use os_parser::{ParseError, parse};
use std::alloc::{AllocError, Global};
use std::process::Abort;
use std::test::Fail;
use std::thread;
use std::thread::Threads;

/// The text of a function's body that nests a part: the head, the repeated opening, the middle, the repeated closing, the tail.
#[derive(Clone, Copy)]
struct Nest<'a> {
    head: &'a str,
    /// What is repeated before the middle.
    open: &'a str,
    middle: &'a str,
    /// What is repeated behind the middle.
    close: &'a str,
    tail: &'a str,
}

/// Each part that a program nests, a row a line, in which `¶` is a line feed. First stands how often it may be repeated: its depth is 200
/// then. Behind that stands where it is refused when it is repeated once more: which token, counted from the first one of the last opening
/// piece. The last are the pieces of the nest.
const NESTS: &str = "197 0 return |(|1|)|;
197 0 return |- |1||;
197 2 return |f(|1|)|;
197 2 return |f(1, |1|, 1)|;
197 1 return |a[|1|]|;
197 1 return |a ? |1| : 1|;
197 1 return |a ? 1 : |1||;
197 2 return |1 + (|1|) * 2|;
197 0 a[|(|1|)|] = 1;
197 0 f(|(|1|)|);
197 0 int a = |(|1|)|;
197 0 int a[|(|1|)|];
197 0 int a[|(|1|)|] __attribute__((stream));
197 0 return |(|1|)| + 1;
197 0 a = |(|1|)|;
197 0 a += |(|1|)|;
197 0 ++a[|(|1|)|];
197 0 a[|(|1|)|]--;
197 0 if (|(|1|)|) ;
197 0 if (|(|1|)|) ; else ;
197 0 while (|(|1|)|) ;
197 0 for (a = |(|1|)|;;) ;
197 0 for (a[|(|1|)|] = 1;;) ;
197 0 for (int a = |(|1|)|;;) ;
197 0 for (;|(|1|)|;) ;
197 0 for (;;a = |(|1|)|) ;
197 0 for (;;++a[|(|1|)|]) ;
197 0 #pragma omp tick(a[|(|1|)|] >> 1)
197 0 #pragma omp tick(a >> |(|1|)|)
197 0 #pragma omp task input(a >> b[|(|1|)|])¶;
197 0 #pragma omp task input(a[|(|1|)|] >> b)¶;
197 0 #pragma omp task firstprivate(c) output(a[|(|1|)|] << b[1])¶;
199 0 |{||}|
197 2 |{ a = 1; |;|}|
198 0 |if (a) |;||
198 0 |if (a) ; else |;||
198 0 |while (a) |;||
198 0 |for (;;) |;||
198 2 |¶#pragma omp task¶|;||";

/// The text before the body of a nest.
const FUNCTION: &str = "int main(void) {\n";

fn put_often(text: &mut String, piece: &str, count: u32) -> Result<(), AllocError> {
    for _ in 0..count {
        text.push_str(piece)?;
    }
    Ok(())
}

fn put_nest(text: &mut String, nest: &Nest<'_>, count: u32) -> Result<(), AllocError> {
    text.push_str(FUNCTION)?;
    text.push_str(nest.head)?;
    put_often(text, nest.open, count)?;
    text.push_str(nest.middle)?;
    put_often(text, nest.close, count)?;
    text.push_str(nest.tail)?;
    text.push_str("\n}")
}

fn text_of(alloc: Global, nest: &Nest<'_>, count: u32) -> Result<String, AllocError> {
    let mut text = String::new(alloc);
    put_nest(&mut text, nest, count)?;
    Ok(text)
}

/// How often the nest of a row may be repeated, and which token is refused then, with what stands behind these.
fn numbers_of(row: &str) -> Option<(u32, u32, &str)> {
    let (most, row) = row.split_once(" ")?;
    let (token, row) = row.split_once(" ")?;
    Some((most.parse::<u32>().ok()?, token.parse::<u32>().ok()?, row))
}

/// The nest whose pieces are these.
fn nest_of(pieces: &str) -> Option<Nest<'_>> {
    let (head, pieces) = pieces.split_once("|")?;
    let (open, pieces) = pieces.split_once("|")?;
    let (middle, pieces) = pieces.split_once("|")?;
    let (close, tail) = pieces.split_once("|")?;
    Some(Nest {
        head,
        open,
        middle,
        close,
        tail,
    })
}

/// How many tokens begin before a place in their text.
fn count_before(tokens: &[Token], before: usize) -> u32 {
    let mut count: u32 = 0;
    for token in tokens {
        if (token.start as usize) < before {
            count = count.saturating_add(1);
        }
    }
    count
}

/// How many tokens of a text begin before a place.
fn tokens_before(alloc: Global, text: &str, before: usize) -> u32 {
    if text.len() > 262_144 {
        return 0;
    }
    match lex(alloc, text.as_bytes()) {
        Ok(tokens) => count_before(&tokens, before),
        Err(_) => 0,
    }
}

/// Where the last opening piece of a nest begins that is repeated once more than so often.
fn last_opening(nest: &Nest<'_>, most: u32) -> usize {
    let opened = nest.open.len().saturating_mul(most as usize);
    FUNCTION
        .len()
        .saturating_add(nest.head.len())
        .saturating_add(opened)
}

/// The program of a nest has a depth of 200.
fn is_read(rt: &impl Abort, alloc: Global, nest: &Nest<'_>, most: u32) -> Result<(), Fail> {
    let text = text_of(alloc, nest, most)?;
    assert!(rt; read(alloc, &text) == Some(Ok(200)), "{text}");
    Ok(())
}

/// The program of a nest is read in a thread, whose stack has the size that threads have where none is asked for.
fn a_thread_reads<R: Threads + Abort>(
    rt: &R,
    alloc: Global,
    nest: &Nest<'_>,
    most: u32,
) -> Result<(), Fail> {
    let text = text_of(alloc, nest, most)?;
    let reader = thread::spawn(rt, move || read(alloc, text.as_str()))?;
    assert!(rt; reader.join(rt) == Some(Ok(200)));
    Ok(())
}

/// A nest that is repeated once more than it may be is refused at its token.
fn is_refused(
    rt: &impl Abort,
    alloc: Global,
    nest: &Nest<'_>,
    (most, token): (u32, u32),
) -> Result<(), Fail> {
    let text = text_of(alloc, nest, most.saturating_add(1))?;
    let before = tokens_before(alloc, &text, last_opening(nest, most));
    let found = read(alloc, &text);
    assert!(rt; found == Some(Err(before.saturating_add(token))), "{text}");
    Ok(())
}

/// The nest of a row, whose line feeds are there, is as deep as it may be.
fn is_deepest<R: Threads + Abort>(rt: &R, alloc: Global, row: &str) -> Result<(), Fail> {
    let Some((most, token, pieces)) = numbers_of(row) else {
        return Err(Fail::from("a row with two numbers"));
    };
    let Some(nest) = nest_of(pieces) else {
        return Err(Fail::from("a row with five pieces"));
    };
    is_read(rt, alloc, &nest, most)?;
    a_thread_reads(rt, alloc, &nest, most)?;
    is_refused(rt, alloc, &nest, (most, token))
}

/// The nest of a row is as deep as it may be.
fn holds<R: Threads + Abort>(rt: &R, alloc: Global, row: &str) -> Result<(), Fail> {
    let row = row.replace(alloc, "¶", "\n")?;
    is_deepest(rt, alloc, &row)
}

#[test]
fn a_depth_of_200_is_read_and_the_first_token_that_is_too_deep_refused(
    rt: HostRuntime,
) -> Result<(), Fail> {
    for row in NESTS.lines() {
        holds(&rt, rt.alloc(), row)?;
    }
    Ok(())
}

/// What stands before the value of a `return`.
static HEAD: [Token; 7] = [
    token!(Kind::Key(Key::Int)),
    token!(Kind::Name(8)),
    token!(Kind::Punct(Punct::OpenParen)),
    token!(Kind::Key(Key::Void)),
    token!(Kind::Punct(Punct::CloseParen)),
    token!(Kind::Punct(Punct::OpenBrace)),
    token!(Kind::Key(Key::Return)),
];

/// Whether as many tokens as there may be are refused at a place.
fn is_refused_at(alloc: Global, tokens: &[Token], at: u32) -> bool {
    tokens.len() == 262_144
        && matches!(parse(alloc, tokens), Err(ParseError::Syntax { place, line: 1 }) if place == at)
}

/// As many parentheses as there may be tokens: alone, and as many as fit behind a `return`, where the 198th is too deep.
#[test]
fn many_open_parentheses_are_refused(rt: HostRuntime) -> Result<(), Fail> {
    let open = token!(Kind::Punct(Punct::OpenParen));
    let mut tokens = vec![in rt.alloc(); open; 262_144]?;
    assert!(rt; is_refused_at(rt.alloc(), &tokens, 0));
    for (slot, token) in tokens.iter_mut().zip(&HEAD) {
        *slot = *token;
    }
    assert!(rt; is_refused_at(rt.alloc(), &tokens, 204));
    Ok(())
}

/// A sum in a body, each of whose terms adds a link to its chain.
const CHAIN: Nest<'static> = Nest {
    head: "return ",
    open: "",
    middle: "1",
    close: "+1",
    tail: ";",
};

/// A chain adds nothing to the depth of its operands, however long it is.
#[test]
fn a_long_chain_is_no_deeper(rt: HostRuntime) -> Result<(), Fail> {
    for count in [0, 131_000] {
        let text = text_of(rt.alloc(), &CHAIN, count)?;
        assert!(rt; read(rt.alloc(), &text) == Some(Ok(3)), "{count} links");
    }
    Ok(())
}
