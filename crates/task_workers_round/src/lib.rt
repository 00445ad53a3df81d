//! The frames of one round of a plan, run by several workers.
//!
//! `run_by` splits the workers and the list of frames until each worker has a part of its own. Each part
//! is run in a thread, and what its frames come to goes into a stretch of the ends and of the outputs
//! that nobody else has. `hire` makes the workers, and `Results` the room. A `Gate` is where a test may
//! hold a worker. What is promised, `AreResults` in `specs/Results`, says nothing of workers.
//! `task_workers` delivers it, and goes on to the next round. `run_alone` runs all frames of a plan by one worker, which needs
//! no rounds.
#![tactic(auto)]

mod alone;
mod gate;
mod halves;
mod results;
mod worker;

pub use alone::run_alone;
pub use gate::{Gate, NoGate};
pub use halves::run_by;
pub use results::{Results, most_outputs, outputs_of};
pub use worker::{Worker, hire};
