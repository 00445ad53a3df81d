//! Runs in control order: activations that run one after the other, with no plan, as long as each finds there what it reads.
//!
//! `InOrder` holds how the activations so far ended, all of them, and what streams hold behind them. The next one then runs where
//! its windows lie in what is there; where they don't, it is left to the epochs, which go on from what is held. The promise is the
//! data-flow meaning of the activations that ran: `epoch_run_in_order_laws` says why. `Apart` is such a run of activations from a number on,
//! each on what the others of these wrote, while those before still run; `join` puts it behind these.
#![tactic(auto)]

mod apart;
mod behind;
mod gathering;
mod giving_up;
mod holding;
mod in_order;
mod inputs;
mod joining;
mod running;
mod streams;
mod streams_behind;
mod writing;

pub use apart::Apart;
pub use in_order::{HeldInOrder, InOrder};
pub use streams::Streams;
