//! The server: jobs by lines.
//!
//! `serve_words` takes the words of a command as `run_words` does, and a second collection of files. Where the first word is
//! `serve`, it reads the file of jobs that the words name by lines, each of which has the words of a command, runs these, and writes
//! what each came to: its status, its output and its report, in the order of the lines. While a job runs, further lines are read.
//! All other words are answered as `run_words` answers them.
//!
//! The contract says that the bytes written are the answers to the jobs, each once and none else, and that the k-th answer is the
//! k-th job's: what the command leaves for its words. `laws::serves_say` has what that comes to, status by status. The reading of lines,
//! and what an answer looks like, are `os_serve_jobs`, and the order of the answers is `os_serve_answers`.
#![tactic(auto)]

mod answering;
mod asked;
mod beside;
mod commands;
pub mod laws;
mod serving;
mod words;

pub use words::serve_words;
