//! How many steps of the machine a run took, and how many turns of the budgets, for `main` and task by task, and how much faster more
//! workers can make it.
//!
//! `measure` runs the tasks of activations over an input on one thread, and once more, over what each read, for what they take: `AreRuns`
//! says that the machine ends each task in as many steps as were counted, with as many turns of its budget as were counted. It finds how many
//! steps a longest chain of activations takes that wait for one another, `IsLongest`. `steps_text` tells in lines what that comes to for `main` and
//! for each task, and by how much all steps of tasks are more than those of the longest chain: more workers can't make the tasks faster
//! than that. The steps of `main` have no part in that bound.
#![tactic(auto)]

mod measuring;
mod numbers;
mod runs;
mod taking;
mod tally;
mod telling;

pub use measuring::{Measured, measure};
pub use runs::{Taken, TaskRun};
pub use telling::steps_text;
