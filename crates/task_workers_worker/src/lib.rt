//! One worker over the table of a run and its deques.
//!
//! `work` asks its hand for a frame, and where that gives none that it can claim, it looks at 64 frames of the table and
//! asks again. A frame that it claimed it runs: the gate is called, the inputs are read into the log's room, the body
//! runs, each piece of its outputs is delivered, the frames that this opened are pushed to the hand, and the frame is
//! finished. It leaves once it has looked often enough: at least four times as often as there are frames, and 65,536 times.
//!
//! It takes no memory: the log (`WorkLog`) has room for all that a worker may run and for the largest frames. What it did
//! is in its seat, its hand and its log, and `specs/Worked` says what these have to do with one another.
#![tactic(auto)]

mod finding;
mod log;
mod running;
mod windows;
mod working;

pub use log::WorkLog;
pub use task_workers_round::{Gate, NoGate};
pub use working::work;
