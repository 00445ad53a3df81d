//! A run of a program or of a code over an input, in memory: from the text or the object and the input to what the run comes to.
//!
//! `accept` is the program that a text stands for, or says why it is refused, and `accept_object` is the code of an object.
//! `compile` is a code of a program. `run_code` is the way from a code and an input to the bytes that are written and to what the
//! report tells: the code is run in epochs (`epoch_run`), and the output's bytes are collected. What comes of it is the data-flow
//! meaning of the activations, where the machine runs the task of each. `run_program` compiles a program and runs its code. What
//! comes of it is the control-driven data-flow meaning of the program over the input, for every program, input and number of
//! workers. `run_code_over` and `run_program_over` do the same over an input that they give up before the bytes are collected.
//!
//! `trace_program` does what `run_program` does over one table, with one plan of all activations, and tells which activations each
//! worker ran; `trace_code` does so for a code. `accept_trace` has such lists of a trace's bytes, and `replay_program` runs a program
//! by them: it hands back the run that they make, or the line that tells what is wrong with them.
//!
//! No file is read here and nothing is written. `laws` has what holds of every program and of every run of a job, and `body_laws`
//! what holds of every list of activations and their bodies.
#![tactic(auto)]

mod accepting;
mod accepting_object;
mod accepting_trace;
pub mod body_laws;
mod code_replay;
mod code_run;
mod code_trace;
mod compiling;
mod in_epochs;
mod inputs;
pub mod laws;
mod lay_out;
mod made;
mod planning;
mod refused;
mod replay_lines;
mod replaying;
mod reporting;
mod running;
mod tracing;

pub use accepting::accept;
pub use accepting_object::accept_object;
pub use accepting_trace::accept_trace;
pub use code_run::{run_code, run_code_over};
pub use code_trace::{Traced, trace_code};
pub use compiling::compile;
pub use made::MadeRun;
pub use replaying::{Replay, replay_program};
pub use running::{run_program, run_program_over};
pub use tracing::trace_program;
