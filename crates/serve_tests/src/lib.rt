//! The server of jobs, over files and sinks in memory: what it writes, tells and answers.
//!
//! There is nothing here but tests. Each is named by what it shows; the answers that it wants were worked out by hand from the rules
//! of the language and of the command.
#![tactic(auto)]

#[cfg(test)]
mod served;
