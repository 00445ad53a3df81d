//! Runs of a code in epochs: workers run some of the activations while the control program creates the next ones (one worker does so in turn),
//! and what may still be read of what they wrote is carried over to those.
//!
//! `run_epochs` takes a code and an input, and gives the positions of all activations that the control program creates,
//! how each of them ended, the elements of the output, and how the control program ended: the data-flow meaning of the
//! whole run, for every number of workers.
//!
//! Between two epochs stand the ends and the output of the activations so far, as these alone mean them, and the elements
//! that later ones may read. The frames of an epoch are activations that have no end yet: the new ones, and those of
//! earlier epochs that can run by now; what still waits is left out (`epoch_run_ready`), and costs a few looks in each epoch in which something runs. So the
//! plan and the cells of one epoch alone are held at once. Where none has ended before the control program has, and none is found to wait
//! then, all are run by the plan of the whole run, and nothing is carried over.
//!
//! Where nobody waits, and by several workers bodies are short, `run_epochs` goes on in control order instead (`epoch_run_in_order`): activations
//! run one after the other, with no plan, until one of them doesn't find there what it reads. What ran is then held as after an epoch. Several
//! workers portion out such a run: each has a control program of its own create the activations up to the end of its portion, and runs those from
//! the portion's begin on (`epoch_run_portions`).
#![tactic(auto)]

mod adding;
mod at_once;
mod beside;
mod borders;
mod epoch;
mod epochs;
mod held;
mod in_order;
mod joining;
mod next_spans;
mod open_bodies;
mod pace;
mod plan;
mod portioning;
mod portions;
mod putting;
mod result;
mod room;
mod size;
mod standing;
mod unended;
mod way;

pub use epochs::{run_epochs, run_epochs_of};
pub use result::{Budgets, RunResult};
pub use size::EpochSize;
