//! An operator of a chain, between the number on its left and what stands on its right.

ghost use Rattle.std.specs.Prelude.{◌≡◌, Bool, ℕ, ℤ, Ok, false, true};
ghost use Rattle.cddf_meaning.specs.Answers.{Answer, Left, and_then, left as pair};
ghost use Rattle.cddf_meaning.specs.Value.{linked};
ghost use Rattle.cddf_meaning_plain_state.specs.Stops.{Evaluates};

use crate::operators::{binary, holds};
use crate::stop::Stop;
use c_int::Types;
use os_ast::{Binary, Link};

/// Whether the right side is evaluated: that of `&&` and of `||` only where it decides.
pub fn needs_right(operator: Binary, left: i32) -> bool
    ensures needed { result ≡ true → (line turns : ℕ) (u v : Bool) (right : ℕ → Answer (Left ℤ)) →
        linked operator line u v (pair left turns) right ≡ and_then (right turns)
        (λ b. linked operator line u v (pair left b.turns) (λ turns. Ok (pair b.value turns))) }
    ensures not_needed { result ≡ false → (line turns : ℕ) (u v : Bool) (right : ℕ → Answer (Left ℤ)) (b : ℤ) →
        linked operator line u v (pair left turns) right ≡ linked operator line u v (pair left turns) (λ turns. Ok (pair b turns)) }
{
    match operator {
        Binary::And => holds(left),
        Binary::Or => !holds(left),
        _ => true,
    }
}

/// What an operator gives where its right side has this value, by the types of the two; a trap has its line.
pub fn link_value(link: &Link, types: Types, left: i32, right: i32) -> Result<i32, Stop>
    ensures { (turns : ℕ) → Evaluates result turns
        (linked link.now.op link.now.mark.line types.left types.right (pair left turns) (λ turns. Ok (pair right turns))) }
{
    match link.op {
        Binary::And => Ok(i32::from(holds(left) && holds(right))),
        Binary::Or => Ok(i32::from(holds(left) || holds(right))),
        operator => binary(operator, link.mark.line, types, left, right),
    }
}
