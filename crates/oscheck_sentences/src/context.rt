//! What stands round a place among tokens.

use os_lexer::names::{FIRSTPRIVATE, INPUT, OUTPUT, TASK};
use os_lexer::{Key, Kind, Punct, Token};

/// How many blocks are open behind some tokens.
pub(crate) fn depth(front: &[Token]) -> usize {
    let mut depth: usize = 0;
    for token in front {
        match token.kind {
            Kind::Punct(Punct::OpenBrace) => depth = depth.saturating_add(1),
            Kind::Punct(Punct::CloseBrace) => depth = depth.saturating_sub(1),
            _ => {}
        }
    }
    depth
}

/// The last of some tokens.
pub(crate) fn last(front: &[Token]) -> Option<Kind> {
    let token = front.last()?;
    Some(token.kind)
}

/// The token that stands so far from the end of some tokens, the last one at 1.
pub(crate) fn from_end(front: &[Token], distance: usize) -> Option<Kind> {
    let place = front.len().checked_sub(distance)?;
    let token = front.get(place)?;
    Some(token.kind)
}

/// Some tokens without the last one.
fn without_last(front: &[Token]) -> &[Token] {
    match front.get(..front.len().saturating_sub(1)) {
        Some(front) => front,
        None => front,
    }
}

/// Whether the last token is of this kind.
pub(crate) fn ends_with(front: &[Token], kind: Kind) -> bool {
    match front.last() {
        Some(token) => token.kind == kind,
        None => false,
    }
}

/// Whether a statement, a declaration or an item ends or a block begins with a token.
fn ends_statement(kind: Kind) -> bool {
    matches!(
        kind,
        Kind::Punct(Punct::Semicolon)
            | Kind::Punct(Punct::OpenBrace)
            | Kind::Punct(Punct::CloseBrace)
            | Kind::PragmaEnd
    )
}

/// Whether nothing of the next statement, declaration or item stands there yet.
pub(crate) fn is_at_front(front: &[Token]) -> bool {
    match front.last() {
        Some(token) => ends_statement(token.kind),
        None => true,
    }
}

/// Whether the last token is a name, and nothing of the statement or the item stands before it.
pub(crate) fn is_first_name(front: &[Token]) -> bool {
    matches!(last(front), Some(Kind::Name(_))) && is_at_front(without_last(front))
}

/// The tokens before the innermost parenthesis that is open behind some.
pub(crate) fn before_paren(front: &[Token]) -> Option<&[Token]> {
    let mut closed: usize = 0;
    let mut left = front.len();
    for token in front.iter().rev() {
        left = left.saturating_sub(1);
        match token.kind {
            Kind::Punct(Punct::CloseParen) => closed = closed.saturating_add(1),
            Kind::Punct(Punct::OpenParen) if closed == 0 => return front.get(..left),
            Kind::Punct(Punct::OpenParen) => closed = closed.saturating_sub(1),
            Kind::Punct(Punct::OpenBrace) | Kind::Punct(Punct::CloseBrace) => return None,
            _ => {}
        }
    }
    None
}

/// Whether the innermost open bracket is that of an index or of a size.
pub(crate) fn is_in_brackets(front: &[Token]) -> bool {
    let mut closed: usize = 0;
    for token in front.iter().rev() {
        match token.kind {
            Kind::Punct(Punct::CloseParen | Punct::CloseBracket) => {
                closed = closed.saturating_add(1);
            }
            Kind::Punct(mark @ (Punct::OpenParen | Punct::OpenBracket)) if closed == 0 => {
                return mark == Punct::OpenBracket;
            }
            Kind::Punct(Punct::OpenParen | Punct::OpenBracket) => closed = closed.saturating_sub(1),
            Kind::Punct(Punct::Semicolon | Punct::OpenBrace | Punct::CloseBrace) => return false,
            _ => {}
        }
    }
    false
}

/// Whether a parenthesis is open.
pub(crate) fn is_in_parens(front: &[Token]) -> bool {
    before_paren(front).is_some()
}

/// Whether the innermost open parenthesis is that of the head of a `for`.
pub(crate) fn is_in_head(front: &[Token]) -> bool {
    match before_paren(front) {
        Some(before) => ends_with(before, Kind::Key(Key::For)),
        None => false,
    }
}

/// The first token of the statement, the declaration or the item that stands there so far.
fn first(front: &[Token]) -> Option<Kind> {
    let mut first = None;
    for token in front.iter().rev() {
        if ends_statement(token.kind) {
            return first;
        }
        first = Some(token.kind);
    }
    first
}

/// Whether a declaration stands there so far.
pub(crate) fn is_declaration(front: &[Token]) -> bool {
    matches!(
        first(front),
        Some(Kind::Key(Key::Int | Key::Unsigned | Key::Const))
    )
}

/// Whether a constant of the program stands there so far.
pub(crate) fn is_constant(front: &[Token]) -> bool {
    depth(front) == 0 && first(front) == Some(Kind::Key(Key::Const))
}

/// The tokens of the pragma's line that is open behind some tokens, without its start.
fn open_line(front: &[Token]) -> Option<&[Token]> {
    let mut begin = front.len();
    for token in front.iter().rev() {
        match token.kind {
            Kind::PragmaStart => return front.get(begin..),
            Kind::PragmaEnd => return None,
            _ => begin = begin.saturating_sub(1),
        }
    }
    None
}

/// Whether a clause of a task could begin behind some tokens.
pub(crate) fn is_among_clauses(front: &[Token]) -> bool {
    match open_line(front) {
        Some(line) => is_task(line) && !is_in_parens(line),
        None => false,
    }
}

/// Whether the line of a pragma is that of a task.
fn is_task(line: &[Token]) -> bool {
    match line.get(1) {
        Some(token) => token.kind == Kind::Name(TASK),
        None => false,
    }
}

/// Whether a pragma's line ends too early that ends behind some tokens: a bracket is open, or a comma stands last.
pub(crate) fn is_cut(front: &[Token]) -> bool {
    match open_line(front) {
        Some(line) => is_in_parens(line) || ends_with(line, Kind::Punct(Punct::Comma)),
        None => false,
    }
}

/// The tokens before the bracket that the last of some tokens closes.
fn before_closed(front: &[Token]) -> Option<&[Token]> {
    if ends_with(front, Kind::Punct(Punct::CloseParen)) {
        before_paren(without_last(front))
    } else {
        None
    }
}

/// Whether a clause of a task stands last, at the front of the line behind that of a pragma.
pub(crate) fn is_clause_behind_line(front: &[Token]) -> bool {
    match before_closed(front) {
        Some(before) => matches!(
            (from_end(before, 1), from_end(before, 2)),
            (
                Some(Kind::Name(INPUT | OUTPUT | FIRSTPRIVATE)),
                Some(Kind::PragmaEnd)
            )
        ),
        None => false,
    }
}

/// Whether a name in parentheses stands last, where neither a call nor the head of a statement has them.
pub(crate) fn is_name_in_parens(front: &[Token]) -> bool {
    ends_with(front, Kind::Punct(Punct::CloseParen))
        && matches!(from_end(front, 2), Some(Kind::Name(_)))
        && from_end(front, 3) == Some(Kind::Punct(Punct::OpenParen))
        && !matches!(
            from_end(front, 4),
            Some(Kind::Name(_) | Kind::Key(Key::If | Key::While | Key::For))
        )
}
