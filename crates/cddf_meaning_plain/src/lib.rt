//! Two programs that compute what a program means, slowly and exactly, for tests.
//!
//! `plain_body` computes `body` of `cddf_meaning`, and `plain_control` `control`. They walk the tree and look each name up
//! among all that are in scope. `value`, `changes`, `run`, `functions` and `streams` are one recursion over the trees. What
//! it decides stands in functions outside of it: those of `cddf_meaning_plain_state`, which has what a body works on. `cddf_meaning_plain_tasks` finds
//! `main` and its tasks, and what stands round a body.
#![tactic(auto)]

mod body;
mod changes;
mod control;
mod functions;
mod run;
mod streams;
mod value;

pub use body::plain_body;
pub use control::plain_control;
