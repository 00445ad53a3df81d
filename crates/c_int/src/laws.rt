//! What the operators are to one another. The functions take nothing and do nothing: their contracts are the laws.

ghost use Rattle.c_int.specs.Laws.{DivisionsFit};
ghost use Rattle.c_int.specs.Machine.{WorksOnBits};

/// `a` is `(a / b) * b + a % b`, and the remainder is smaller than the divisor and has the sign of `a`.
pub fn divisions_fit()
    ensures { DivisionsFit }
{}

/// The operators work on the bits of values: for operands of `int` and `unsigned`, the form for their types gives the bits of
/// what the operator between these values gives, or the same trap.
pub fn works_on_bits()
    ensures { WorksOnBits }
{}
