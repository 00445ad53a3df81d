//! The command from its words on, over files and sinks in memory: what it writes, reports and answers.
//!
//! There is nothing here but tests. Each is named by what it shows; the outputs, reports and statuses that it wants were
//! worked out by hand from the rules of the language.
#![tactic(auto)]

#[cfg(test)]
mod runs;
