//! The control program of a program and its tasks, and what stands round a body.
//!
//! In `tasks`, `main_of` finds `main`, and `tasks` its tasks in the order of the text, each with the scalars that it
//! captures: `naming` says what a task takes from round it. `sites_of` numbers them by their pragmas. An `Around` is what is
//! round a body. `body` and `control` have the states in which a task's body and that of `main` begin, and `control` what
//! comes of the end of `main`. All are slow, and for tests; `cddf_meaning_plain` runs what stands between.
#![tactic(auto)]

mod around;
pub mod body;
pub mod control;
mod found_task;
mod items;
mod naming;
mod sites;
pub mod tasks;

pub use around::Around;
pub use found_task::FoundTask;
pub use sites::{Sites, sites_of};
