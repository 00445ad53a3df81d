use crate::finding::Finding;
use crate::note::Note;

/// What was found in a file.
#[derive(Drop)]
pub struct Report {
    /// The name by which the file is told.
    pub name: String,
    /// In the order in which they are told.
    pub findings: Vec<Finding>,
    /// What is told of the file as a whole, behind the findings.
    pub notes: Vec<Note>,
}
