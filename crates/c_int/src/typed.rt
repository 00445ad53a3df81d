//! The operators on bits, chosen by the types of the operands.

ghost use Rattle.std.specs.Prelude.{◌≡◌};
ghost use Rattle.c_int.specs.Machine.{binary_for, unary_for, unsigned_binary, works_unsigned};

use crate::operators::{Binary, Unary};

/// The types of two operands: whether each is `unsigned`, and else `int`.
#[derive(Clone, Copy, Debug, PartialEq, Eq)]
pub struct Types {
    pub left: bool,
    pub right: bool,
}

/// The operator on bits that has an operand of this type.
pub fn unary_for(unsigned: bool, operator: Unary) -> Unary
    ensures { result ≡ unary_for unsigned operator }
{
    match operator {
        Unary::Minus if unsigned => Unary::MinusUnsigned,
        _ => operator,
    }
}

/// The form for `unsigned` of an operator; one that has no such form is the same for both types.
fn unsigned_binary(operator: Binary) -> Binary
    ensures { result ≡ unsigned_binary operator }
{
    match operator {
        Binary::Less => Binary::LessUnsigned,
        Binary::LessEqual => Binary::LessEqualUnsigned,
        Binary::Greater => Binary::GreaterUnsigned,
        Binary::GreaterEqual => Binary::GreaterEqualUnsigned,
        Binary::ShiftLeft => Binary::ShiftLeftUnsigned,
        Binary::ShiftRight => Binary::ShiftRightUnsigned,
        Binary::Add => Binary::AddUnsigned,
        Binary::Subtract => Binary::SubtractUnsigned,
        Binary::Multiply => Binary::MultiplyUnsigned,
        Binary::Divide => Binary::DivideUnsigned,
        Binary::Remainder => Binary::RemainderUnsigned,
        _ => operator,
    }
}

/// Whether an operator works in `unsigned`: a shift in the type of its left operand, every other where one operand is.
fn works_unsigned(operator: Binary, types: Types) -> bool
    ensures { result ≡ works_unsigned operator types.left types.right }
{
    match operator {
        Binary::ShiftLeft | Binary::ShiftRight => types.left,
        _ => types.left || types.right,
    }
}

/// The operator on bits that has operands of these types.
pub fn binary_for(types: Types, operator: Binary) -> Binary
    ensures { result ≡ binary_for types.left types.right operator }
{
    if works_unsigned(operator, types) {
        unsigned_binary(operator)
    } else {
        operator
    }
}
