//! What a token says of an expression.

ghost use Rattle.std.specs.Prelude.{◌≡◌};
ghost use Rattle.os_ast.specs.Operators.{level_of};
ghost use Rattle.os_lexer.specs.declared.token.Kind.TheVariants as kind;
ghost use Rattle.os_parser_grammar.specs.Operands.{punct_start, operand_start, start_at, punct_binary, binary_of};
ghost use Rattle.os_parser_grammar.specs.Operands.{of_precedence, op_precedence, operator_at, level_at};
ghost use Rattle.os_parser_grammar.specs.Reading.{kind_at};

use crate::cursor::Cursor;
use os_ast::{Binary, Level, Unary};
use os_lexer::{Kind, Punct};
use os_parser_grammar::OperandStart;

/// One more than the largest number of a program.
pub const NUMBER_BOUND: u32 = 2_147_483_648;

fn punct_start(punct: Punct) -> OperandStart
    ensures { result ≡ punct_start punct }
{
    match punct {
        Punct::Plus => OperandStart::Sign(Unary::Plus),
        Punct::Minus => OperandStart::Sign(Unary::Minus),
        Punct::Not => OperandStart::Sign(Unary::Not),
        Punct::Invert => OperandStart::Sign(Unary::Invert),
        Punct::OpenParen => OperandStart::Paren,
        Punct::ShiftLeftSet
        | Punct::ShiftRightSet
        | Punct::AddSet
        | Punct::SubtractSet
        | Punct::MultiplySet
        | Punct::DivideSet
        | Punct::RemainderSet
        | Punct::BitAndSet
        | Punct::BitXorSet
        | Punct::BitOrSet
        | Punct::Up
        | Punct::Down
        | Punct::ShiftLeft
        | Punct::ShiftRight
        | Punct::LessEqual
        | Punct::GreaterEqual
        | Punct::Equal
        | Punct::Unequal
        | Punct::And
        | Punct::Or
        | Punct::Star
        | Punct::Slash
        | Punct::Percent
        | Punct::Less
        | Punct::Greater
        | Punct::Set
        | Punct::BitAnd
        | Punct::BitXor
        | Punct::BitOr
        | Punct::Question
        | Punct::Colon
        | Punct::Semicolon
        | Punct::Comma
        | Punct::CloseParen
        | Punct::OpenBracket
        | Punct::CloseBracket
        | Punct::OpenBrace
        | Punct::CloseBrace => OperandStart::Other,
    }
}

fn number_start(number: u32) -> OperandStart
    ensures { result ≡ operand_start (kind.Number number) }
{
    if number < NUMBER_BOUND {
        OperandStart::Number(number)
    } else {
        OperandStart::Other
    }
}

/// Each wide number may begin an operand, since it has 32 bits.
fn wide_start(number: u32) -> OperandStart
    ensures { result ≡ operand_start (kind.Wide number) }
{
    OperandStart::Wide(number)
}

fn operand_start(kind: Kind) -> OperandStart
    ensures { result ≡ operand_start kind }
{
    match kind {
        Kind::Number(number) => number_start(number),
        Kind::Wide(number) => wide_start(number),
        Kind::Name(id) => OperandStart::Name(id),
        Kind::Punct(punct) => punct_start(punct),
        Kind::Key(_) | Kind::PragmaStart | Kind::PragmaEnd => OperandStart::Other,
    }
}

/// How an operand may begin with the next token.
pub(crate) fn start_at(cursor: &Cursor<'_>) -> OperandStart
    ensures { result ≡ start_at cursor.now }
{
    match cursor.kind() {
        Some(kind) => operand_start(kind),
        None => OperandStart::Other,
    }
}

fn punct_binary(punct: Punct) -> Option<Binary>
    ensures { result ≡ punct_binary punct }
{
    match punct {
        Punct::ShiftLeft => Some(Binary::ShiftLeft),
        Punct::ShiftRight => Some(Binary::ShiftRight),
        Punct::LessEqual => Some(Binary::LessEqual),
        Punct::GreaterEqual => Some(Binary::GreaterEqual),
        Punct::Equal => Some(Binary::Equal),
        Punct::Unequal => Some(Binary::Unequal),
        Punct::And => Some(Binary::And),
        Punct::Or => Some(Binary::Or),
        Punct::Plus => Some(Binary::Add),
        Punct::Minus => Some(Binary::Subtract),
        Punct::Star => Some(Binary::Multiply),
        Punct::Slash => Some(Binary::Divide),
        Punct::Percent => Some(Binary::Remainder),
        Punct::Less => Some(Binary::Less),
        Punct::Greater => Some(Binary::Greater),
        Punct::BitAnd => Some(Binary::BitAnd),
        Punct::BitXor => Some(Binary::BitXor),
        Punct::BitOr => Some(Binary::BitOr),
        Punct::ShiftLeftSet
        | Punct::ShiftRightSet
        | Punct::AddSet
        | Punct::SubtractSet
        | Punct::MultiplySet
        | Punct::DivideSet
        | Punct::RemainderSet
        | Punct::BitAndSet
        | Punct::BitXorSet
        | Punct::BitOrSet
        | Punct::Up
        | Punct::Down
        | Punct::Set
        | Punct::Not
        | Punct::Invert
        | Punct::Question
        | Punct::Colon
        | Punct::Semicolon
        | Punct::Comma
        | Punct::OpenParen
        | Punct::CloseParen
        | Punct::OpenBracket
        | Punct::CloseBracket
        | Punct::OpenBrace
        | Punct::CloseBrace => None,
    }
}

fn binary_of(kind: Kind) -> Option<Binary>
    ensures { result ≡ binary_of kind }
{
    match kind {
        Kind::Punct(punct) => punct_binary(punct),
        Kind::Number(_)
        | Kind::Wide(_)
        | Kind::Name(_)
        | Kind::Key(_)
        | Kind::PragmaStart
        | Kind::PragmaEnd => None,
    }
}

/// The level of the chains that an operator makes.
fn level_of(op: Binary) -> Level
    ensures { result ≡ level_of op }
{
    match op {
        Binary::Or => Level::Or,
        Binary::And => Level::And,
        Binary::BitOr => Level::BitOr,
        Binary::BitXor => Level::BitXor,
        Binary::BitAnd => Level::BitAnd,
        Binary::Equal | Binary::Unequal => Level::Equal,
        Binary::Less | Binary::LessEqual | Binary::Greater | Binary::GreaterEqual => Level::Order,
        Binary::ShiftLeft | Binary::ShiftRight => Level::Shift,
        Binary::Add | Binary::Subtract => Level::Sum,
        Binary::Multiply | Binary::Divide | Binary::Remainder => Level::Product,
    }
}

/// How closely an operator binds: from 1, the least, to 10.
fn op_precedence(op: Binary) -> u32
    ensures { result ≡ op_precedence op }
{
    match level_of(op) {
        Level::Or => 1,
        Level::And => 2,
        Level::BitOr => 3,
        Level::BitXor => 4,
        Level::BitAnd => 5,
        Level::Equal => 6,
        Level::Order => 7,
        Level::Shift => 8,
        Level::Sum => 9,
        Level::Product => 10,
    }
}

/// The level that has this precedence.
pub(crate) fn level_at(precedence: u32) -> Level
    ensures { result ≡ level_at precedence }
{
    match precedence {
        1 => Level::Or,
        2 => Level::And,
        3 => Level::BitOr,
        4 => Level::BitXor,
        5 => Level::BitAnd,
        6 => Level::Equal,
        7 => Level::Order,
        8 => Level::Shift,
        9 => Level::Sum,
        _ => Level::Product,
    }
}

fn of_precedence(precedence: u32, op: Option<Binary>) -> Option<Binary>
    ensures { result ≡ of_precedence precedence op }
{
    match op {
        Some(op) => {
            if op_precedence(op) == precedence {
                Some(op)
            } else {
                None
            }
        }
        None => None,
    }
}

/// The operator of this precedence that the next token spells.
pub(crate) fn operator_at(precedence: u32, cursor: &Cursor<'_>) -> Option<Binary>
    ensures { result ≡ operator_at precedence cursor.now }
{
    match cursor.kind() {
        Some(kind) => of_precedence(precedence, binary_of(kind)),
        None => None,
    }
}
