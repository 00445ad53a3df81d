//! The operators that give an exact result, or trap.

ghost use Rattle.std.specs.Prelude.{◌≡◌};
ghost use Rattle.c_int.specs.Operators as operator;

use crate::trap::OperatorTrap;

/// `a + b`
pub fn add(a: i32, b: i32) -> Result<i32, OperatorTrap>
    ensures { result ≡ operator.sum a b }
{
    let exact = i64::from(a) + i64::from(b);
    if (exact + 2147483648).cast_unsigned() > 4294967295 {
        return Err(OperatorTrap::Overflow);
    }
    Ok(exact as i32)
}

/// `a - b`
pub fn subtract(a: i32, b: i32) -> Result<i32, OperatorTrap>
    ensures { result ≡ operator.difference a b }
{
    fitting(i64::from(a) - i64::from(b), OperatorTrap::Overflow)
}

/// `a * b`
pub fn multiply(a: i32, b: i32) -> Result<i32, OperatorTrap>
    ensures { result ≡ operator.product a b }
{
    fitting(i64::from(a) * i64::from(b), OperatorTrap::Overflow)
}

/// `-a`
pub fn negate(a: i32) -> Result<i32, OperatorTrap>
    ensures { result ≡ operator.negation a }
{
    fitting(-i64::from(a), OperatorTrap::Overflow)
}

/// `a / b`, rounded toward zero.
pub fn divide(a: i32, b: i32) -> Result<i32, OperatorTrap>
    ensures { result ≡ operator.quotient a b }
{
    if b == 0 {
        return Err(OperatorTrap::DivisorZero);
    }
    fitting(i64::from(a) / i64::from(b), OperatorTrap::Overflow)
}

/// `a % b`: what `a / b` leaves. It traps where `a / b` does.
pub fn remainder(a: i32, b: i32) -> Result<i32, OperatorTrap>
    ensures { result ≡ operator.remainder a b }
{
    divide(a, b)?;
    fitting(i64::from(a) % i64::from(b), OperatorTrap::Overflow)
}

/// An exact result as an `int`, or else the trap.
pub(crate) fn fitting(exact: i64, trap: OperatorTrap) -> Result<i32, OperatorTrap>
    ensures { result ≡ operator.fitting trap exact }
{
    match i32::try_from(exact) {
        Ok(number) => Ok(number),
        Err(_) => Err(trap),
    }
}
