//! The operators on the 32 bits of a number, and the shifts.

ghost use Rattle.std.specs.Prelude.{◌≡◌};
ghost use Rattle.c_int.specs.Operators as operator;

use crate::arithmetic::fitting;
use crate::trap::OperatorTrap;

/// `a & b`
pub fn bit_and(a: i32, b: i32) -> i32
    ensures { result ≡ operator.bit_and a b }
{
    a & b
}

/// `a | b`
pub fn bit_or(a: i32, b: i32) -> i32
    ensures { result ≡ operator.bit_or a b }
{
    a | b
}

/// `a ^ b`
pub fn bit_xor(a: i32, b: i32) -> i32
    ensures { result ≡ operator.bit_xor a b }
{
    a ^ b
}

/// `~a`
pub fn invert(a: i32) -> i32
    ensures { result ≡ operator.inversion a }
{
    !a
}

/// `a << amount`: `a` times a power of two, exactly.
pub fn shift_left(a: i32, amount: i32) -> Result<i32, OperatorTrap>
    ensures { result ≡ operator.shift_left a amount }
{
    if a < 0 || amount < 0 || amount > 31 {
        return Err(OperatorTrap::Shift);
    }
    fitting(i64::from(a) << amount, OperatorTrap::Shift)
}

/// `a >> amount`: the floor of `a` divided by a power of two.
pub fn shift_right(a: i32, amount: i32) -> Result<i32, OperatorTrap>
    ensures { result ≡ operator.shift_right a amount }
{
    if amount < 0 || amount > 31 {
        return Err(OperatorTrap::Shift);
    }
    Ok(a >> amount)
}
