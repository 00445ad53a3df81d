//! Laws of the static semantics: what the definitions of names and rules in os_ast come to.
//!
//! There is no code here but laws, of every program and of programs without violation. They take nothing and do
//! nothing. They say of the names of a program that they stand in the order of their places, that they tell of all that
//! stands in it, and which tokens have one; of a scope, what is known of each declaration in it and that slots lie above
//! one another; of slots, arrays, functions and streams, how many there are, as sums over the tree; and what tasks
//! capture, by what stands in their bodies.
//!
//! `specs/` has the sums and relations that the laws name, and `proofs/` the lemmas, which `window_check` cites for its
//! walk, and `lowering_relation` and `lowering_draft` for code. `Room` alone stands in no law: it says how much of each count a part
//! of a tree takes at most.
#![tactic(auto)]

mod laws;

pub use laws::{
    arrays_have_sizes, captured_scalars_are_used, functions_are_numbered, limits_are_kept,
    marks_have_places, names_are_known, names_are_the_name_tokens, names_in_order, names_tell,
    slots_are_stacked, slots_are_summed, used_names_are_told,
};
