//! What the activations of a run came to, whole: a plan is run on one thread, and of each frame its end is kept and what it
//! wrote.
//!
//! `outcomes` promises the plan's meaning, as `execute_one` of `flow_core` does, but of each frame and not of the sink alone.
//! What a frame read stands in the cells of the plan, and is kept too, so that its body can be run again over the same values;
//! and so is the order in which the frames were run, in which each stands behind those that it waits for.
//! The run goes through the board of `flow_core`, frame by frame by its `run_frame`.
#![tactic(auto)]

mod kept;
mod running;

pub use kept::Outcomes;
pub use running::outcomes;
