//! A worker's portion of a run: activations from about a number on, which run in control order apart from those before them.
//!
//! `run_portion` runs the control program by itself. It passes the first activations without running them, which tells no more than where the
//! windows of the next ones lie, and runs those behind them, each on the input and on what others of its portion wrote. So several
//! portions of one run go on at once. What one of them comes to is an `Apart` of `epoch_run_in_order`: whatever the activations before it come to,
//! those that ran end so among all that the control program creates. Put behind one another, portions make the whole run.
#![tactic(auto)]

mod portion;
mod positions;
mod running;
mod walk;

pub use portion::run_portion;
pub use walk::STRETCH;
