//! Batches of activations, each run by one worker, of which several may run at the same time.
//!
//! `run_batch` takes some activations by number, and runs them one after the other. Each of them reads the input, what the streams held
//! before all batches, what earlier ones of its batch wrote, and what other batches left in their slots. An activation that doesn't find all
//! that it reads is left out. What the others came to is a `BatchOutcome`: their ends, and the elements that they wrote.
//!
//! A slot is a `OnceLock`. Its content has the fact with it that each of its ends and elements is what the run means, so whoever reads right
//! elements makes right ones: where all inputs of an activation are there, its outcome is what its body makes of them. No schedule is
//! spoken of. A slot that is still empty, or an element that isn't there, leaves activations out, and changes no value. `specs/Meant` and
//! `specs/Outcome` say what this means.
//!
//! The bodies are any `LocalBodies`, which are the `Bodies` of `flow_core_laws` for one thread: this crate knows nothing of the machine.
#![tactic(auto)]

mod activation;
mod batch;
mod batch_outcome;
mod ended;
mod inputs;
mod local_bodies;
mod places;
mod slot;
mod sources;
mod streams;
mod writes;

pub use activation::Buffers;
pub use batch::{Workload, run_batch};
pub use batch_outcome::BatchOutcome;
pub use ended::Ended;
pub use inputs::Inputs;
pub use local_bodies::{Local, LocalBodies};
pub use slot::{Meaning, SlotContent, fill_slot, read_slot};
pub use sources::Sources;
pub use streams::Streams;
