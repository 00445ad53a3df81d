//! The operators of the trees as those on numbers, and the types that they give, told by whether they are `unsigned`.

ghost use Rattle.std.specs.Prelude.{◌≡◌};
ghost use Rattle.cddf_meaning.specs.ExpressionTypes.{type_of_one, type_of_two};
ghost use Rattle.cddf_meaning.specs.Operators.{operator_of_one, operator_of_two, step_operator};

use c_int::Types;
use os_ast::{Binary, Step, Unary};

/// An operator with one operand.
pub fn operator_of_one(operator: Unary) -> c_int::Unary
    ensures { result ≡ operator_of_one operator }
{
    match operator {
        Unary::Minus => c_int::Unary::Minus,
        Unary::Plus => c_int::Unary::Plus,
        Unary::Not => c_int::Unary::Not,
        Unary::Invert => c_int::Unary::Invert,
    }
}

/// The operator with two operands; `&&` and `||` are none.
pub fn operator_of_two(operator: Binary) -> Option<c_int::Binary>
    ensures { result ≡ operator_of_two operator }
{
    match operator {
        Binary::Or | Binary::And => None,
        Binary::BitOr => Some(c_int::Binary::BitOr),
        Binary::BitXor => Some(c_int::Binary::BitXor),
        Binary::BitAnd => Some(c_int::Binary::BitAnd),
        Binary::Equal => Some(c_int::Binary::Equal),
        Binary::Unequal => Some(c_int::Binary::Unequal),
        Binary::Less => Some(c_int::Binary::Less),
        Binary::LessEqual => Some(c_int::Binary::LessEqual),
        Binary::Greater => Some(c_int::Binary::Greater),
        Binary::GreaterEqual => Some(c_int::Binary::GreaterEqual),
        Binary::ShiftLeft => Some(c_int::Binary::ShiftLeft),
        Binary::ShiftRight => Some(c_int::Binary::ShiftRight),
        Binary::Add => Some(c_int::Binary::Add),
        Binary::Subtract => Some(c_int::Binary::Subtract),
        Binary::Multiply => Some(c_int::Binary::Multiply),
        Binary::Divide => Some(c_int::Binary::Divide),
        Binary::Remainder => Some(c_int::Binary::Remainder),
    }
}

/// `++` adds 1, and `--` takes 1.
pub fn step_operator(step: Step) -> Binary
    ensures { result ≡ step_operator step }
{
    match step {
        Step::Up => Binary::Add,
        Step::Down => Binary::Subtract,
    }
}

/// The type that an operator with one operand gives.
pub fn type_of_one(operator: Unary, operand: bool) -> bool
    ensures { result ≡ type_of_one operator operand }
{
    match operator {
        Unary::Not => false,
        Unary::Minus | Unary::Plus | Unary::Invert => operand,
    }
}

/// The type that an operator with two operands gives.
pub fn type_of_two(operator: Binary, types: Types) -> bool
    ensures { result ≡ type_of_two operator types.left types.right }
{
    match operator {
        Binary::Or
        | Binary::And
        | Binary::Equal
        | Binary::Unequal
        | Binary::Less
        | Binary::LessEqual
        | Binary::Greater
        | Binary::GreaterEqual => false,
        Binary::ShiftLeft | Binary::ShiftRight => types.left,
        Binary::BitOr
        | Binary::BitXor
        | Binary::BitAnd
        | Binary::Add
        | Binary::Subtract
        | Binary::Multiply
        | Binary::Divide
        | Binary::Remainder => types.left || types.right,
    }
}
