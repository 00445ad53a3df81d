//! The operators that give 1 where something holds, and else 0.

ghost use Rattle.std.specs.Prelude.{◌≡◌};
ghost use Rattle.c_int.specs.Operators as operator;

/// `a == b`
pub fn equal(a: i32, b: i32) -> i32
    ensures { result ≡ operator.equality a b }
{
    i32::from(a == b)
}

/// `a != b`
pub fn unequal(a: i32, b: i32) -> i32
    ensures { result ≡ operator.inequality a b }
{
    i32::from(a != b)
}

/// `a < b`
pub fn less(a: i32, b: i32) -> i32
    ensures { result ≡ operator.less a b }
{
    i32::from(a < b)
}

/// `a <= b`
pub fn less_equal(a: i32, b: i32) -> i32
    ensures { result ≡ operator.less_equal a b }
{
    i32::from(a <= b)
}

/// `a > b`
pub fn greater(a: i32, b: i32) -> i32
    ensures { result ≡ operator.less b a }
{
    i32::from(a > b)
}

/// `a >= b`
pub fn greater_equal(a: i32, b: i32) -> i32
    ensures { result ≡ operator.less_equal b a }
{
    i32::from(a >= b)
}

/// `!a`
pub fn not(a: i32) -> i32
    ensures { result ≡ operator.complement a }
{
    i32::from(a == 0)
}
