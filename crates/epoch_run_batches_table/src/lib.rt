//! Batches of activations on several workers, over the one table of `task_workers`.
//!
//! Each batch is a frame of the table: it opens once the batches are done in whose slots it looks, is claimed once, and is pushed to the workers'
//! deques and stolen from them, as any frame. So that no new plan has to be proved sound, the plan is that of tokens: a batch is an activation
//! that writes one element to a stream of its own, and reads one from those of the batches that it waits for. The body of its frame runs
//! the batch (`epoch_run_batches`), and fills its slot.
//!
//! `run_batches` gives what the slots hold. Each end and each element there is what the activations mean; a batch whose slot stayed empty left
//! nothing. `run_batches_of` does so for a run that the caller picks, where not all activations are at hand.
#![tactic(auto)]

mod batch;
mod bodies;
mod running;
mod tokens;

pub use batch::Batch;
pub use running::{run_batches, run_batches_of};
