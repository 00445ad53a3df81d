//! The bodies of activations, as runtimes ask for them.
//!
//! `TaskBodies` has the body of each activation of a list: its task on the machine, `run_task`, with the
//! captured values of that activation. What it makes of its inputs is `frame_outcome`, the machine's meaning.
//! `CountedBodies` adds up the steps of bodies beside. `laws` has what runtimes ask of bodies: these serve each plan that stands for the activations, and all
//! activations of a run in parts; bodies that agree have one meaning, so activations that come later change
//! nothing of what the earlier ones mean.
#![tactic(auto)]

mod bodies;
mod counted;
pub mod laws;

pub use bodies::TaskBodies;
pub use counted::{COUNTED, CountedBodies};
