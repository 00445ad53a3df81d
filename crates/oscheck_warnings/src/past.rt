//! Where the token behind another one stands.

ghost use Rattle.std.specs.Prelude.{◌≡◌, ◌+◌, ◌≤◌};
ghost use Rattle.os_lexer.specs.Limits.{text_limit};
ghost use Rattle.oscheck_warnings.specs.Open.{open_in};
ghost use Rattle.oscheck_warnings.specs.Streams.{past_in_line, past_mark, past_in_item, past_in_place, clause_place_past};

use crate::clause_place::ClausePlace;
use os_lexer::names::OMP;
use os_lexer::{Kind, Punct};

/// The place behind a token in a pragma's line, outside brackets.
fn past_in_line(word: u32, kind: Kind) -> ClausePlace
    ensures exact { result ≡ past_in_line word kind }
    ensures few { open_in result ≤ 0 }
{
    match kind {
        Kind::Name(name) => ClausePlace::Line(name),
        Kind::Punct(Punct::OpenParen) => ClausePlace::Start(word),
        _ => ClausePlace::Line(word),
    }
}

/// The place behind a mark in an item.
fn past_mark(word: u32, deep: usize, mark: Punct) -> ClausePlace
    requires { deep ≤ text_limit }
    ensures exact { result ≡ past_mark word deep mark }
    ensures few { open_in result ≤ deep + 1 }
{
    match mark {
        Punct::OpenParen | Punct::OpenBracket => ClausePlace::Within(word, deep + 1),
        Punct::CloseParen | Punct::CloseBracket if deep == 0 => ClausePlace::Line(word),
        Punct::CloseParen | Punct::CloseBracket => ClausePlace::Within(word, deep - 1),
        Punct::Comma if deep == 0 => ClausePlace::Start(word),
        _ => ClausePlace::Within(word, deep),
    }
}

/// The place behind a token in an item.
fn past_in_item(word: u32, deep: usize, kind: Kind) -> ClausePlace
    requires { deep ≤ text_limit }
    ensures exact { result ≡ past_in_item word deep kind }
    ensures few { open_in result ≤ deep + 1 }
{
    match kind {
        Kind::Punct(mark) => past_mark(word, deep, mark),
        _ => ClausePlace::Within(word, deep),
    }
}

/// The place behind a token that neither begins nor ends a pragma's line.
fn past_in_place(place: ClausePlace, kind: Kind) -> ClausePlace
    requires { open_in place ≤ text_limit }
    ensures exact { result ≡ past_in_place place kind }
    ensures few { open_in result ≤ open_in place + 1 }
{
    match place {
        ClausePlace::Outside => ClausePlace::Outside,
        ClausePlace::Line(word) => past_in_line(word, kind),
        ClausePlace::Start(word) => past_in_item(word, 0, kind),
        ClausePlace::Within(word, deep) => past_in_item(word, deep, kind),
    }
}

/// The place behind a token, or the same place where there is none.
pub(crate) fn clause_place_past(place: ClausePlace, kind: Option<Kind>) -> ClausePlace
    requires { open_in place ≤ text_limit }
    ensures exact { result ≡ clause_place_past place kind }
    ensures few { open_in result ≤ open_in place + 1 }
{
    match kind {
        Some(Kind::PragmaStart) => ClausePlace::Line(OMP),
        Some(Kind::PragmaEnd) => ClausePlace::Outside,
        Some(kind) => past_in_place(place, kind),
        None => place,
    }
}
