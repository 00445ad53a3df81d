//! Where tokens that mean no program are refused.
//!
//! The production of a program refuses at the place of the refusal: the tokens before it are the front of a program, and
//! with its own they are that of none. Tokens that mean no program have such a place, and no tokens have two.
//!
//! That no program begins with the tokens up to the place is shown by two facts of the productions: what is spelled is
//! read back, and a refusal is the same whatever follows the refused token. Nothing runs.
#![tactic(auto)]

ghost use Rattle.os_ast.specs.Fronts.{HasPlace, OnePlace};
ghost use Rattle.os_parser_places.specs.Places.{RefusedAtItsPlace};

/// The production of a program refuses at the least place such that no program begins with the tokens up to it. This is
/// a law: it takes nothing and does nothing.
pub fn refusals_stand_at_their_place()
    ensures refused { RefusedAtItsPlace }
    ensures some { HasPlace }
    ensures one { OnePlace }
{}
