//! The jobs of the command, and their files and sinks: what a job is, which files it reads and how far, the statuses and the
//! lines that tell why there is no run.
//!
//! `load` reads one file, as far as its limit, or says why it can't be used. `deliver` writes bytes and then lines, and answers
//! the status that it was given where all was taken. `refuse` tells a refusal in a line and answers its status, and `tell` writes
//! any line, as `USAGE`; none of these three takes memory. Files and sinks are given by their traits, and the contracts say what
//! each counted and took. A `Line` is put together in room of its own. Nothing is said here of words, nor of what a file's bytes
//! mean: what makes a file usable is handed to the definitions.
#![tactic(auto)]

mod delivering;
mod job;
mod limits;
mod line;
mod loading;
mod refusal;
mod status;
mod subject;
mod telling;

pub use delivering::{Lines, NoLines, deliver};
pub use job::{CompileJob, ExecJob, ExplainJob, GenJob, Job, ReplayJob, Request, Terms};
pub use limits::{BLOCKS_LIMIT, DEFAULT_BUDGET, DEFAULT_WORKERS, SEED_LIMIT};
pub use line::Line;
pub use loading::load;
pub use refusal::Refusal;
pub use status::Status;
pub use subject::Subject;
pub use telling::{USAGE, refuse, tell};
