//! What a run came to, told: the bytes of its output, and its report.
//!
//! A run ends with an end, or none, for each activation, and an element, or none, for each position of the
//! output that is claimed for writing. `output_bytes` gives the values before the first gap, or the first poison, as bytes, and
//! `written_length` says how many they are. `first_missing` says for which element a starved activation waits, and who should
//! give it; `producer` finds the window that gives an element. `report_lines` writes a line for each activation that isn't Done,
//! where one that was poisoned tells the root, one for the control program and one for the output; it takes no memory, and goes
//! through one fixed buffer, so that a report of many lines is few writes. `run_status` gives the status of the run.
//!
//! `specs/` says what is written, missing and reported, over any list of activations; the calls promise
//! exactly that. The laws stand in `laws`.
#![tactic(auto)]

pub mod laws;
mod line_buffer;
mod lines;
mod missing;
mod output;
mod report;
mod status;

pub use missing::{Missing, first_missing, has_end, producer};
pub use output::output_bytes;
pub use report::{report_lines, written_length};
pub use status::{RunStatus, has_done, run_status};
