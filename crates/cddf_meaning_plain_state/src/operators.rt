//! The operators of the trees, by those on bits that the types of the operands choose.

ghost use Rattle.std.specs.Prelude.{◌≡◌, not};
ghost use Rattle.c_int.specs.Operators.{is_zero};
ghost use Rattle.cddf_meaning.specs.Answers.{at_line};
ghost use Rattle.cddf_meaning.specs.Operators.{binary_answer, unary_answer};
ghost use Rattle.cddf_meaning_plain_state.specs.Stops.{Comes};

use crate::stop::Stop;
use c_int::{OperatorTrap, Trap, Types, apply_binary, apply_unary, binary_for, unary_for};
use cddf_meaning::operators::{operator_of_one, operator_of_two};
use os_ast::{Binary, Unary};

/// What an operator gives, or its trap with its line.
fn at_line(line: u32, given: Result<i32, OperatorTrap>) -> Result<i32, Stop>
    ensures { Comes result (at_line line given) }
{
    match given {
        Ok(number) => Ok(number),
        Err(trap) => Err(Stop::trap(Trap::Operator(trap), line)),
    }
}

/// What an operator of this line gives of its operand, by its type.
pub fn unary(operator: Unary, line: u32, unsigned: bool, a: i32) -> Result<i32, Stop>
    ensures { Comes result (unary_answer operator line unsigned a) }
{
    at_line(
        line,
        apply_unary(unary_for(unsigned, operator_of_one(operator)), a),
    )
}

/// What an operator of this line gives of its operands, by their types. `&&` and `||` are told apart before.
pub(crate) fn binary(operator: Binary, line: u32, types: Types, a: i32, b: i32) -> Result<i32, Stop>
    ensures { Comes result (binary_answer operator line types.left types.right a b) }
{
    match operator_of_two(operator) {
        None => Ok(0),
        Some(operator) => at_line(line, apply_binary(binary_for(types, operator), a, b)),
    }
}

/// Whether a condition holds.
pub fn holds(number: i32) -> bool
    ensures { result ≡ not (is_zero number) }
{
    number != 0
}
