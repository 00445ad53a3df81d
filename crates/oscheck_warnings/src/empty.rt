//! Statements whose body is a semicolon alone.

ghost use Rattle.std.specs.Prelude.{◌≡◌, ◌+◌, ◌<◌, ◌≤◌, ◌↔◌, IsTrue, length, drop};
ghost use Rattle.os_lexer.specs.Limits.{text_limit};
ghost use Rattle.oscheck_warnings.specs.EmptyBodies.{open_past, kind_from, behind_parens, IsHead, IsEmptyBody};

use crate::bare::stands;
use os_lexer::{Key, Kind, Punct, Token};

/// How many parentheses are open behind a token, where one and `more` are open before it.
fn open_past(more: usize, kind: Kind) -> usize
    requires { more ≤ text_limit }
    ensures exact { result ≡ open_past more kind }
    ensures few { result ≤ more + 2 }
{
    match kind {
        Kind::Punct(Punct::OpenParen) => more + 2,
        Kind::Punct(Punct::CloseParen) => more,
        _ => more + 1,
    }
}

/// The kind of a token that begins at a point of the text.
fn kind_from(point: u32, token: Token) -> Option<Kind>
    ensures { result ≡ kind_from point token }
{
    if token.start == point {
        Some(token.kind)
    } else {
        None
    }
}

/// What stands directly behind the parenthesis that closes one that is open at a place.
fn behind_parens(tokens: &[Token], from: usize) -> Option<Kind>
    requires { length tokens.now ≤ text_limit }
    ensures { result ≡ behind_parens 1 0 (drop from tokens.now) }
{
    let mut depth: usize = 1;
    let mut point = 0;
    for place in from..tokens.len() {
        let token = tokens[place];
        if depth == 0 {
            return kind_from(point, token);
        }
        depth = open_past(depth - 1, token.kind);
        point = token.end;
    }
    None
}

/// Whether `if`, `while` or `for` stands at a place.
fn is_head(tokens: &[Token], place: usize) -> bool
    ensures { IsTrue result ↔ IsHead tokens.now place }
{
    stands(tokens, place, Kind::Key(Key::If))
        || stands(tokens, place, Kind::Key(Key::While))
        || stands(tokens, place, Kind::Key(Key::For))
}

/// Whether `if`, `while` or `for` stands at a place whose body is `;` alone, directly behind its parentheses.
pub fn is_empty_body(tokens: &[Token], place: usize) -> bool
    requires within { place < length tokens.now }
    requires few { length tokens.now ≤ text_limit }
    ensures { IsTrue result ↔ IsEmptyBody tokens.now place }
{
    is_head(tokens, place)
        && stands(tokens, place + 1, Kind::Punct(Punct::OpenParen))
        && behind_parens(tokens, place + 2) == Some(Kind::Punct(Punct::Semicolon))
}
