//! Runs of a plan on several workers.
//!
//! `execute` runs a plan over one table of atomic words, in which workers claim frames, give their outputs and open
//! others, all at once: `task_workers_worker` has one of them, `work`, and `task_workers_crew` several. `execute_rounds`
//! runs a plan round by round: the frames of a round that may run are given to the workers of `task_workers_round` by
//! parts of their list, and what they came to is delivered to the board of the run before the next round begins. One worker
//! runs frame by frame.
//!
//! What both promise is the plan's meaning, whatever the number of workers. A `Gate` is where a test may hold a worker
//! before it runs a frame; a `WorkLog` is what a worker did. `execute_logged` tells beside the meaning which frames each
//! worker ran, in its order.
#![tactic(auto)]

mod by_rounds;
mod logged;
mod over_table;
mod rounds;

pub use by_rounds::execute_rounds;
pub use logged::Logged;
pub use over_table::{execute, execute_logged};
pub use task_workers_round::{Gate, NoGate};
pub use task_workers_worker::{WorkLog, work};
