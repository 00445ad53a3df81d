//! The operators of C's `int`, which has 32 bits in two's complement, and of `unsigned`.
//!
//! An operator gives the exact result, or one of three traps: what C leaves undefined or leaves to the
//! implementation is decided here once, for the meaning of programs and for the machine that runs them.
//! `specs/Operators.antt` says it over whole numbers, a line an operator, and `specs/Unsigned.antt` for `unsigned`, whose
//! numbers stand here as the `int`s with the same 32 bits; each function here gives exactly that. Lines
//! of the program are known to the callers alone.
//!
//! Beside them stand the names of what ends a run of a program, which its meaning and the machine both speak of: `Trap` has the traps
//! of the operators and those of indexes, windows and streams, `ControlLimit` the limits of the control program.
//!
//! `specs/Typed.antt` says what the operators give between values with their types, the ones that an expression of the language
//! has, with C's conversions. A law, `laws::works_on_bits`, joins the two: the operator for the types gives the bits of that value.
#![tactic(auto)]

mod arithmetic;
mod bits;
mod comparison;
mod control_limit;
pub mod laws;
mod operators;
mod trap;
mod typed;
mod unsigned;

pub use arithmetic::{add, divide, multiply, negate, remainder, subtract};
pub use bits::{bit_and, bit_or, bit_xor, invert, shift_left, shift_right};
pub use comparison::{equal, greater, greater_equal, less, less_equal, not, unequal};
pub use control_limit::ControlLimit;
pub use operators::{Binary, Unary, apply_binary, apply_unary};
pub use trap::{OperatorTrap, Trap};
pub use typed::{Types, binary_for, unary_for};
pub use unsigned::{
    add_unsigned, divide_unsigned, less_equal_unsigned, less_unsigned, multiply_unsigned,
    negate_unsigned, remainder_unsigned, shift_left_unsigned, shift_right_unsigned,
    subtract_unsigned,
};
