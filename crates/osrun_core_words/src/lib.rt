//! The words of the command: which job they name.
//!
//! `command` answers the request that words name, or that they name none. The first word picks one of seven commands, `run`,
//! `gen`, `compile`, `exec`, `explain`, `trace` and `replay`; a table says which arguments each takes, within which bounds and with
//! which defaults, and clap reads all words by it.
//!
//! What words name is a matter of the words alone: nothing is read or written here. `laws` has two lists of words with what they
//! name.
#![tactic(auto)]

mod argument;
pub mod laws;
mod parse;
mod read;
mod table;
mod words_error;

pub use read::command;
pub use words_error::WordsError;
