//! What a run came to, in sentences.
//!
//! `report_text` takes a run, with its layout and its ends, the line of each activation's task and the names of the streams in the
//! program's text, and gives the lines of a report: how `main` ended, how many activations are done and how many bytes are there,
//! which activations leave elements of a stream out, and what became of each other activation, where those of one task to which the
//! same happened share a line. `chain_text` gives a line for each activation of a list. They stand on `first_missing` of `collector`.
//!
//! Their promises are the definitions `report` in `specs/Report.antt` and `member_lines` in `specs/Whole.antt`, over any list of
//! activations. `specs/Facts.antt` says what became of an activation, and `specs/Whole.antt` what is said of it.
#![tactic(auto)]

mod amounts;
mod chain;
mod claimed;
mod context;
mod fact;
mod finding;
mod likeness;
mod passing;
mod readers;
mod report;
mod stream_name;
mod tally;
mod told_run;
mod wording;

pub use chain::chain_text;
pub use claimed::written_count;
pub use fact::{Fact, Sentence, Supply};
pub use finding::line_of;
pub use report::report_text;
pub use stream_name::{StreamName, name_of};
pub use told_run::ToldRun;
