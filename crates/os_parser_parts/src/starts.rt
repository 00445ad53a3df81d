//! What a token says of a statement.

ghost use Rattle.std.specs.Prelude.{◌≡◌};
ghost use Rattle.os_lexer.specs.declared.token.Kind.TheVariants as kind;
ghost use Rattle.os_parser_grammar.specs.Beginners.{punct_stmt, key_stmt, stmt_start, stmt_at, punct_change};
ghost use Rattle.os_parser_grammar.specs.Beginners.{change_sign, change_at, name_of, name_at, numeral_of, number_at};

use os_ast::{Assign, Binary, Step};
use os_lexer::{Key, Kind, Punct};
use os_parser_expressions::{Cursor, NUMBER_BOUND};
use os_parser_grammar::{ChangeSign, Numeral, StmtStart};

fn punct_stmt(punct: Punct) -> StmtStart
    ensures { result ≡ punct_stmt punct }
{
    match punct {
        Punct::Up => StmtStart::Step(Step::Up),
        Punct::Down => StmtStart::Step(Step::Down),
        Punct::Semicolon => StmtStart::Semicolon,
        Punct::OpenBrace => StmtStart::Brace,
        Punct::ShiftLeftSet
        | Punct::ShiftRightSet
        | Punct::AddSet
        | Punct::SubtractSet
        | Punct::MultiplySet
        | Punct::DivideSet
        | Punct::RemainderSet
        | Punct::BitAndSet
        | Punct::BitXorSet
        | Punct::BitOrSet
        | Punct::ShiftLeft
        | Punct::ShiftRight
        | Punct::LessEqual
        | Punct::GreaterEqual
        | Punct::Equal
        | Punct::Unequal
        | Punct::And
        | Punct::Or
        | Punct::Plus
        | Punct::Minus
        | Punct::Star
        | Punct::Slash
        | Punct::Percent
        | Punct::Less
        | Punct::Greater
        | Punct::Set
        | Punct::BitAnd
        | Punct::BitXor
        | Punct::BitOr
        | Punct::Not
        | Punct::Invert
        | Punct::Question
        | Punct::Colon
        | Punct::Comma
        | Punct::OpenParen
        | Punct::CloseParen
        | Punct::OpenBracket
        | Punct::CloseBracket
        | Punct::CloseBrace => StmtStart::Other,
    }
}

fn key_stmt(key: Key) -> StmtStart
    ensures { result ≡ key_stmt key }
{
    match key {
        Key::If => StmtStart::If,
        Key::While => StmtStart::While,
        Key::For => StmtStart::For,
        Key::Break => StmtStart::Break,
        Key::Continue => StmtStart::Continue,
        Key::Return => StmtStart::Return,
        Key::Int
        | Key::Const
        | Key::Void
        | Key::Else
        | Key::Attribute
        | Key::Unsigned
        | Key::Other => StmtStart::Other,
    }
}

fn stmt_start(kind: Kind) -> StmtStart
    ensures { result ≡ stmt_start kind }
{
    match kind {
        Kind::Name(id) => StmtStart::Name(id),
        Kind::Punct(punct) => punct_stmt(punct),
        Kind::Key(key) => key_stmt(key),
        Kind::PragmaStart => StmtStart::Pragma,
        Kind::Number(_) | Kind::Wide(_) | Kind::PragmaEnd => StmtStart::Other,
    }
}

/// How a statement may begin with the next token.
pub fn stmt_at(cursor: &Cursor<'_>) -> StmtStart
    ensures { result ≡ stmt_at cursor.now }
{
    match cursor.kind() {
        Some(kind) => stmt_start(kind),
        None => StmtStart::Other,
    }
}

fn punct_change(punct: Punct) -> ChangeSign
    ensures { result ≡ punct_change punct }
{
    match punct {
        Punct::ShiftLeftSet => ChangeSign::Assign(Assign::With(Binary::ShiftLeft)),
        Punct::ShiftRightSet => ChangeSign::Assign(Assign::With(Binary::ShiftRight)),
        Punct::AddSet => ChangeSign::Assign(Assign::With(Binary::Add)),
        Punct::SubtractSet => ChangeSign::Assign(Assign::With(Binary::Subtract)),
        Punct::MultiplySet => ChangeSign::Assign(Assign::With(Binary::Multiply)),
        Punct::DivideSet => ChangeSign::Assign(Assign::With(Binary::Divide)),
        Punct::RemainderSet => ChangeSign::Assign(Assign::With(Binary::Remainder)),
        Punct::BitAndSet => ChangeSign::Assign(Assign::With(Binary::BitAnd)),
        Punct::BitXorSet => ChangeSign::Assign(Assign::With(Binary::BitXor)),
        Punct::BitOrSet => ChangeSign::Assign(Assign::With(Binary::BitOr)),
        Punct::Up => ChangeSign::Step(Step::Up),
        Punct::Down => ChangeSign::Step(Step::Down),
        Punct::Set => ChangeSign::Assign(Assign::Plain),
        Punct::ShiftLeft
        | Punct::ShiftRight
        | Punct::LessEqual
        | Punct::GreaterEqual
        | Punct::Equal
        | Punct::Unequal
        | Punct::And
        | Punct::Or
        | Punct::Plus
        | Punct::Minus
        | Punct::Star
        | Punct::Slash
        | Punct::Percent
        | Punct::Less
        | Punct::Greater
        | Punct::BitAnd
        | Punct::BitXor
        | Punct::BitOr
        | Punct::Not
        | Punct::Invert
        | Punct::Question
        | Punct::Colon
        | Punct::Semicolon
        | Punct::Comma
        | Punct::OpenParen
        | Punct::CloseParen
        | Punct::OpenBracket
        | Punct::CloseBracket
        | Punct::OpenBrace
        | Punct::CloseBrace => ChangeSign::Other,
    }
}

fn change_sign(kind: Kind) -> ChangeSign
    ensures { result ≡ change_sign kind }
{
    match kind {
        Kind::Punct(punct) => punct_change(punct),
        Kind::Name(_)
        | Kind::Number(_)
        | Kind::Wide(_)
        | Kind::Key(_)
        | Kind::PragmaStart
        | Kind::PragmaEnd => ChangeSign::Other,
    }
}

/// What the next token makes of the target before it: an `assign`, or a `"++"` or `"--"`.
pub(crate) fn change_at(cursor: &Cursor<'_>) -> ChangeSign
    ensures { result ≡ change_at cursor.now }
{
    match cursor.kind() {
        Some(kind) => change_sign(kind),
        None => ChangeSign::Other,
    }
}

fn name_of(kind: Kind) -> Option<u32>
    ensures { result ≡ name_of kind }
{
    match kind {
        Kind::Name(id) => Some(id),
        Kind::Number(_)
        | Kind::Wide(_)
        | Kind::Punct(_)
        | Kind::Key(_)
        | Kind::PragmaStart
        | Kind::PragmaEnd => None,
    }
}

/// The number of the next token's name.
pub(crate) fn name_at(cursor: &Cursor<'_>) -> Option<u32>
    ensures { result ≡ name_at cursor.now }
{
    match cursor.kind() {
        Some(kind) => name_of(kind),
        None => None,
    }
}

fn small(size: u32) -> Option<Numeral>
    ensures { result ≡ numeral_of (kind.Number size) }
{
    if size < NUMBER_BOUND {
        Some(Numeral { size, wide: false })
    } else {
        None
    }
}

/// Each wide number is one that a program may have, since it has 32 bits.
fn wide(size: u32) -> Option<Numeral>
    ensures { result ≡ numeral_of (kind.Wide size) }
{
    Some(Numeral { size, wide: true })
}

fn number_of(kind: Kind) -> Option<Numeral>
    ensures { result ≡ numeral_of kind }
{
    match kind {
        Kind::Number(size) => small(size),
        Kind::Wide(size) => wide(size),
        Kind::Name(_) | Kind::Punct(_) | Kind::Key(_) | Kind::PragmaStart | Kind::PragmaEnd => None,
    }
}

/// The next token's number, where it is one that a program may have.
pub fn number_at(cursor: &Cursor<'_>) -> Option<Numeral>
    ensures { result ≡ number_at cursor.now }
{
    match cursor.kind() {
        Some(kind) => number_of(kind),
        None => None,
    }
}
