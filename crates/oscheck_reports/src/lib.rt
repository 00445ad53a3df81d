//! What `oscheck` found in files, and how that is written.
//!
//! A `Report` is what was found in one file: findings, each an error or a warning at its place, and notes on the file as a whole. It says
//! nothing of how it is written. `form` writes the reports on some files: for people, as lines that editors read as those of gcc, or as
//! one text of SARIF 2.1.0, a format in JSON.
//!
//! Each of these texts is a definition over the same list of reports, in `specs/`: so all three tell the same findings in the same order,
//! each with its check, its line and its sentence. The text of SARIF is the one that `serde_json` promises for a value, and the value is
//! a definition.
#![tactic(auto)]

mod check;
mod check_words;
mod finding;
mod forms;
mod gcc;
mod note;
mod plain;
mod report;
mod sarif;
mod sarif_parts;
mod uri;
mod warning;

pub use check::{Check, Severity};
pub use finding::{Finding, Place};
pub use forms::{Format, form};
pub use note::Note;
pub use report::Report;
pub use warning::Warning;
