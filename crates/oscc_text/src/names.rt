//! What the runtime calls the operators.

ghost use Rattle.std.specs.Prelude.{◌≡◌};
ghost use Rattle.oscc_text.specs.Names.{binary_name, unary_name};

use os_code::{Binary, Unary};

/// The name of an operator with one operand.
pub(crate) fn unary_name(operator: Unary) -> &'static [u8]
    ensures { result.now ≡ unary_name operator }
{
    match operator {
        Unary::Minus => b"os_minus",
        Unary::Plus => b"os_plus",
        Unary::Not => b"os_not",
        Unary::Invert => b"os_invert",
        Unary::MinusUnsigned => b"os_minus_unsigned",
    }
}

/// The name of an operator with two operands.
pub(crate) fn binary_name(operator: Binary) -> &'static [u8]
    ensures { result.now ≡ binary_name operator }
{
    match operator {
        Binary::BitOr => b"os_bit_or",
        Binary::BitXor => b"os_bit_xor",
        Binary::BitAnd => b"os_bit_and",
        Binary::Equal => b"os_equal",
        Binary::Unequal => b"os_unequal",
        Binary::Less => b"os_less",
        Binary::LessEqual => b"os_less_equal",
        Binary::Greater => b"os_greater",
        Binary::GreaterEqual => b"os_greater_equal",
        Binary::ShiftLeft => b"os_shift_left",
        Binary::ShiftRight => b"os_shift_right",
        Binary::Add => b"os_add",
        Binary::Subtract => b"os_subtract",
        Binary::Multiply => b"os_multiply",
        Binary::Divide => b"os_divide",
        Binary::Remainder => b"os_remainder",
        Binary::LessUnsigned => b"os_less_unsigned",
        Binary::LessEqualUnsigned => b"os_less_equal_unsigned",
        Binary::GreaterUnsigned => b"os_greater_unsigned",
        Binary::GreaterEqualUnsigned => b"os_greater_equal_unsigned",
        Binary::ShiftLeftUnsigned => b"os_shift_left_unsigned",
        Binary::ShiftRightUnsigned => b"os_shift_right_unsigned",
        Binary::AddUnsigned => b"os_add_unsigned",
        Binary::SubtractUnsigned => b"os_subtract_unsigned",
        Binary::MultiplyUnsigned => b"os_multiply_unsigned",
        Binary::DivideUnsigned => b"os_divide_unsigned",
        Binary::RemainderUnsigned => b"os_remainder_unsigned",
    }
}
