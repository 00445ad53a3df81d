//! Programs whose trees are written down by hand in os_ast, and what they mean. They take nothing and do nothing.

ghost use Rattle.std.specs.Prelude.{◌≡◌, Ok, [], ◌∷◌, false, negsuc, pos, true};
ghost use Rattle.cddf_meaning.specs.Answers.{left};
ghost use Rattle.cddf_meaning.specs.Body.{body, done};
ghost use Rattle.cddf_meaning.specs.Control.{control};
ghost use Rattle.cddf_meaning.specs.Examples as examples;
ghost use Rattle.c_int.specs.declared.trap.OperatorTrap.TheVariants.{DivisorZero, Overflow};
ghost use Rattle.cddf_meaning.specs.TypedExamples as typed;
ghost use Rattle.cddf_meaning.specs.TypedExamples.{both_of, int, trapped, unsigned, y_after};
ghost use Rattle.flow_core_laws.specs.Outcome.{over_budget};
ghost use Rattle.os_ast.specs.Examples.Invert as invert;

/// Blocks of four bytes, each inverted. The last block of ten bytes has two.
pub fn inverting()
    ensures activations { control invert.program 10 4 ≡ examples.three_blocks }
    ensures over_budget { control invert.program 10 3 ≡ examples.no_turn_left }
    ensures block { body invert.program examples.last_block (pos 8 ∷ pos 9 ∷ []) 3 ≡ done (pos 247 ∷ pos 246 ∷ []) }
    ensures block_over_budget { body invert.program examples.last_block (pos 8 ∷ pos 9 ∷ []) 2 ≡ over_budget }
{}

/// Operands of both types: the value with its type, and its bits.
pub fn mixed_operands()
    ensures less { both_of typed.mixed_less ≡ int (pos 0) }
    ensures quotient { both_of typed.mixed_quotient ≡ unsigned (pos 255) (pos 255) }
    ensures below_zero { both_of typed.below_zero ≡ unsigned (pos 4294967295) (negsuc 0) }
    ensures choice { both_of typed.choice ≡ unsigned (pos 4294967295) (negsuc 0) }
    ensures choice_less { both_of typed.choice_less ≡ int (pos 0) }
    ensures equal { both_of typed.greatest_equal ≡ int (pos 1) }
    ensures halved { both_of typed.greatest_halved ≡ unsigned (pos 1) (pos 1) }
    ensures negative_halved { both_of typed.negative_halved ≡ int (negsuc 0) }
    ensures past_int { both_of typed.past_int ≡ trapped Overflow false }
    ensures sum { both_of typed.mixed_sum ≡ unsigned (pos 2147483648) (negsuc 2147483647) }
    ensures rest { both_of typed.mixed_rest ≡ unsigned (pos 255) (pos 255) }
    ensures by_zero { both_of typed.by_zero ≡ trapped DivisorZero true }
    ensures both_hold { both_of typed.both_hold ≡ int (pos 0) }
    ensures complement { both_of typed.complement ≡ int (pos 1) }
{}

/// Variables of the type `unsigned`: what `y` is behind them, and the turns that are left.
pub fn unsigned_variables()
    ensures wrapping { y_after typed.wrapping 0 ≡ Ok (left (pos 255) 0) }
    ensures counting_down { y_after typed.counting_down 3 ≡ Ok (left (pos 10) 0) }
    ensures change { y_after typed.mixed_change 0 ≡ Ok (left (pos 2147483644) 0) }
{}
