//! Names and rules: the least violation of a program, or what each of its names means.
//!
//! `check` takes a program and answers the refusal, which is the least of its violations by place and then by
//! code, or the program with what each name means: the value of a constant, the number of a function, slots,
//! streams and items. `all_violations` lists all of them. What a violation is and what a name means stand beside the trees,
//! in os_ast.
//!
//! The walk goes over the program once, in the order of the text. `Scopes` is what is in scope at a place, and
//! `Found` is what was found so far, both of `window_check_names`; each function of the walk says of these two what the
//! definitions say of its part of the tree. It never stops early. The body of a task in `main` is walked twice: what it
//! names of `main` is listed first, since that decides what its names mean. What the definitions come to is said by the
//! laws of `window_check_laws`, which are given out here too.
#![tactic(auto)]

mod check_error;
mod checked;
mod checker;
mod declarators;
mod functions;
mod listing;
mod statements;

pub use check_error::CheckError;
pub use checked::Checked;
pub use checker::check;
pub use listing::all_violations;
pub use os_ast::{Resolved, What};
pub use window_check_laws::{
    arrays_have_sizes, captured_scalars_are_used, functions_are_numbered, limits_are_kept,
    marks_have_places, names_are_known, names_are_the_name_tokens, names_in_order, names_tell,
    slots_are_stacked, slots_are_summed, used_names_are_told,
};
