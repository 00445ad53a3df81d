//! Running a task on the machine of os_code.
//!
//! `run_task` runs the unit of an activation's site and answers how it ended. Its promise is the machine's meaning,
//! exactly: the end with its code and line, the outputs of a task that is done, the number of steps, which
//! `Scratch::steps` tells and which the budget bounds, and the turns of its budget that it took, which `Scratch::turns`
//! tells. It takes no memory: `Scratch::new` reserves once what the longest chains of calls of a code need, and a scratch
//! serves one run after another, whatever their ends.
//!
//! The loop takes the forms of a code, each in one turn, with the ends, the lines and the number of steps of its instructions.
//! `registers` has what each instruction does with the machine's lists: any loop over a code is made of it.
#![tactic(auto)]

pub mod laws;
mod ranges;
pub mod registers;
mod running;
mod scratch;
mod stopping;
mod task;

pub use scratch::Scratch;
pub use task::run_task;
