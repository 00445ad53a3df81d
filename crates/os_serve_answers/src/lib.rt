//! Answers to jobs: what is written of each, and what a server leaves that answers the jobs of a file.
//!
//! `Serves` says it of a whole call, whatever runs the jobs: the bytes written are the answers to the jobs in the order of their
//! lines, each once and none else, and the cause of the status goes by the status. `IsServing` says it of each moment between two jobs.
//! `write_answer` writes one answer, and `end` tells how the file of jobs ended.
#![tactic(auto)]

mod ending;
mod heading;
mod job_answer;
mod serve_error;
mod writing;

pub use ending::end;
pub use job_answer::JobAnswer;
pub use serve_error::ServeError;
pub use writing::write_answer;
