//! The command `osrun`: from words and files to output, report and status.
//!
//! `run_words` takes the words of a command, files, and two sinks for output and report, and answers the status of the
//! process: the words name a request, and `osrun_core_answer` answers it. What is written and reported is the control-driven
//! data-flow meaning of the program over the input, and the contract says so for every program, input, file and sink. `laws` has
//! what the contract comes to, status by status, and that calls which differ in the number of workers give the same.
#![tactic(auto)]

mod command;
pub mod laws;

pub use command::run_words;
pub use task_workers::{Gate, NoGate};
