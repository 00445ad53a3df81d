//! What programs are, what begins one, and how deep they may be: from a text through its tokens to its tree.

mod depths;
mod fronts;
mod refusals;
mod shapes;
mod shown;

use os_ast::depth;
use os_lexer::{Token, lex};
use os_parser::{ParseError, parse};
use std::alloc::Global;

/// A token of a kind, in the first line.
macro_rules! token {
    ($kind:expr) => {
        os_lexer::Token {
            kind: $kind,
            start: 0,
            end: 0,
            line: 1,
        }
    };
}

use token;

/// What tokens are read as: the depth of their program, or the place where they are refused. It is nothing where there are more than
/// 262,144 of them, or memory can't be had.
fn read_tokens(alloc: Global, tokens: &[Token]) -> Option<Result<u32, u32>> {
    if tokens.len() > 262_144 {
        return None;
    }
    match parse(alloc, tokens) {
        Ok(program) => Some(Ok(depth(&program))),
        Err(ParseError::Syntax { place, .. }) => Some(Err(place)),
        Err(ParseError::Memory) => None,
    }
}

/// What the tokens of a text are read as. It is nothing where the text has a fault, or more than 262,144 bytes.
fn read(alloc: Global, text: &str) -> Option<Result<u32, u32>> {
    if text.len() > 262_144 {
        return None;
    }
    match lex(alloc, text.as_bytes()) {
        Ok(tokens) => read_tokens(alloc, &tokens),
        Err(_) => None,
    }
}
