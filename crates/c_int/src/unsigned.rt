//! The operators of `unsigned`, on the `int`s that have the same 32 bits: sums, differences and products are taken modulo 2^32,
//! and comparisons, quotients and shifts are those of numbers from 0 to 2^32 - 1.

ghost use Rattle.std.specs.Prelude.{◌≡◌};
ghost use Rattle.c_int.specs.Unsigned as operator;

use crate::trap::OperatorTrap;

/// `a + b`, modulo 2^32
pub fn add_unsigned(a: i32, b: i32) -> i32
    ensures { result ≡ operator.sum a b }
{
    a.wrapping_add(b)
}

/// `a - b`, modulo 2^32
pub fn subtract_unsigned(a: i32, b: i32) -> i32
    ensures { result ≡ operator.difference a b }
{
    a.wrapping_sub(b)
}

/// `a * b`, modulo 2^32
pub fn multiply_unsigned(a: i32, b: i32) -> i32
    ensures { result ≡ operator.product a b }
{
    a.wrapping_mul(b)
}

/// `-a`, modulo 2^32
pub fn negate_unsigned(a: i32) -> i32
    ensures { result ≡ operator.negation a }
{
    a.wrapping_neg()
}

/// `a / b`, rounded down.
pub fn divide_unsigned(a: i32, b: i32) -> Result<i32, OperatorTrap>
    ensures { result ≡ operator.quotient a b }
{
    let divisor = b.cast_unsigned();
    if divisor == 0 {
        return Err(OperatorTrap::DivisorZero);
    }
    Ok((a.cast_unsigned() / divisor).cast_signed())
}

/// `a % b`: what `a / b` leaves. It traps where `a / b` does.
pub fn remainder_unsigned(a: i32, b: i32) -> Result<i32, OperatorTrap>
    ensures { result ≡ operator.remainder a b }
{
    let divisor = b.cast_unsigned();
    if divisor == 0 {
        return Err(OperatorTrap::DivisorZero);
    }
    Ok((a.cast_unsigned() % divisor).cast_signed())
}

/// `a << amount`: `a` times a power of two, modulo 2^32.
pub fn shift_left_unsigned(a: i32, amount: i32) -> Result<i32, OperatorTrap>
    ensures { result ≡ operator.shift_left a amount }
{
    if amount < 0 || amount > 31 {
        return Err(OperatorTrap::Shift);
    }
    Ok(a << amount)
}

/// `a >> amount`: the floor of `a` divided by a power of two.
pub fn shift_right_unsigned(a: i32, amount: i32) -> Result<i32, OperatorTrap>
    ensures { result ≡ operator.shift_right a amount }
{
    if amount < 0 || amount > 31 {
        return Err(OperatorTrap::Shift);
    }
    Ok((a.cast_unsigned() >> amount).cast_signed())
}

/// `a < b`
pub fn less_unsigned(a: i32, b: i32) -> i32
    ensures { result ≡ operator.less a b }
{
    i32::from(a.cast_unsigned() < b.cast_unsigned())
}

/// `a <= b`
pub fn less_equal_unsigned(a: i32, b: i32) -> i32
    ensures { result ≡ operator.less_equal a b }
{
    i32::from(a.cast_unsigned() <= b.cast_unsigned())
}
