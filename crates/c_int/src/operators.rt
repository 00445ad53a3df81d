//! The operators by name.

ghost use Rattle.std.specs.Prelude.{◌≡◌};
ghost use Rattle.c_int.specs.Operators.{binary_value, unary_value};

use crate::arithmetic::{add, divide, multiply, negate, remainder, subtract};
use crate::bits::{bit_and, bit_or, bit_xor, invert, shift_left, shift_right};
use crate::comparison::{equal, greater, greater_equal, less, less_equal, not, unequal};
use crate::trap::OperatorTrap;
use crate::unsigned::{
    add_unsigned, divide_unsigned, less_equal_unsigned, less_unsigned, multiply_unsigned,
    negate_unsigned, remainder_unsigned, shift_left_unsigned, shift_right_unsigned,
    subtract_unsigned,
};

/// The operators with one operand: `-` `+` `!` `~`, and the form of `-` for `unsigned`. The others are the same for both types.
#[derive(Clone, Copy, Debug, PartialEq, Eq)]
pub enum Unary {
    Minus,
    Plus,
    Not,
    Invert,
    MinusUnsigned,
}

/// The operators with two operands that are always evaluated both: `|` `^` `&` `==` `!=` `<` `<=` `>` `>=`
/// `<<` `>>` `+` `-` `*` `/` `%`; and the forms for `unsigned` of those that differ from the operators of `int`. These take
/// and give the 32 bits of an `unsigned` as the `int` that has the same bits.
#[derive(Clone, Copy, Debug, PartialEq, Eq)]
pub enum Binary {
    BitOr,
    BitXor,
    BitAnd,
    Equal,
    Unequal,
    Less,
    LessEqual,
    Greater,
    GreaterEqual,
    ShiftLeft,
    ShiftRight,
    Add,
    Subtract,
    Multiply,
    Divide,
    Remainder,
    LessUnsigned,
    LessEqualUnsigned,
    GreaterUnsigned,
    GreaterEqualUnsigned,
    ShiftLeftUnsigned,
    ShiftRightUnsigned,
    AddUnsigned,
    SubtractUnsigned,
    MultiplyUnsigned,
    DivideUnsigned,
    RemainderUnsigned,
}

/// What an operator gives of one operand.
// In each loop of the machine, like `apply_binary`.
#[inline(always)]
pub fn apply_unary(operator: Unary, a: i32) -> Result<i32, OperatorTrap>
    ensures { result ≡ unary_value operator a }
{
    match operator {
        Unary::Minus => negate(a),
        Unary::Plus => Ok(a),
        Unary::Not => Ok(not(a)),
        Unary::Invert => Ok(invert(a)),
        Unary::MinusUnsigned => Ok(negate_unsigned(a)),
    }
}

/// What an operator gives of its left and its right operand.
// In each loop of the machine, of which a program has two: calls take a fifth of a body of arithmetic.
#[inline(always)]
pub fn apply_binary(operator: Binary, a: i32, b: i32) -> Result<i32, OperatorTrap>
    ensures { result ≡ binary_value operator a b }
{
    match operator {
        Binary::BitOr => Ok(bit_or(a, b)),
        Binary::BitXor => Ok(bit_xor(a, b)),
        Binary::BitAnd => Ok(bit_and(a, b)),
        Binary::Equal => Ok(equal(a, b)),
        Binary::Unequal => Ok(unequal(a, b)),
        Binary::Less => Ok(less(a, b)),
        Binary::LessEqual => Ok(less_equal(a, b)),
        Binary::Greater => Ok(greater(a, b)),
        Binary::GreaterEqual => Ok(greater_equal(a, b)),
        Binary::ShiftLeft => shift_left(a, b),
        Binary::ShiftRight => shift_right(a, b),
        Binary::Add => add(a, b),
        Binary::Subtract => subtract(a, b),
        Binary::Multiply => multiply(a, b),
        Binary::Divide => divide(a, b),
        Binary::Remainder => remainder(a, b),
        Binary::LessUnsigned => Ok(less_unsigned(a, b)),
        Binary::LessEqualUnsigned => Ok(less_equal_unsigned(a, b)),
        Binary::GreaterUnsigned => Ok(less_unsigned(b, a)),
        Binary::GreaterEqualUnsigned => Ok(less_equal_unsigned(b, a)),
        Binary::ShiftLeftUnsigned => shift_left_unsigned(a, b),
        Binary::ShiftRightUnsigned => shift_right_unsigned(a, b),
        Binary::AddUnsigned => Ok(add_unsigned(a, b)),
        Binary::SubtractUnsigned => Ok(subtract_unsigned(a, b)),
        Binary::MultiplyUnsigned => Ok(multiply_unsigned(a, b)),
        Binary::DivideUnsigned => divide_unsigned(a, b),
        Binary::RemainderUnsigned => remainder_unsigned(a, b),
    }
}
