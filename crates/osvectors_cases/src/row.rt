/// What came of a case.
#[derive(Clone, Copy, Debug, PartialEq, Eq)]
pub enum Outcome {
    /// The run passed.
    Passed,
    /// The run was made, and failed.
    Failed,
    /// The run could not be made or judged, since a file could not be read or memory could not be had.
    Broken,
}

/// What a report says of a case. Texts have one line.
#[derive(Debug, Drop)]
pub struct Row {
    /// Which case it is.
    pub title: Vec<u8>,
    pub outcome: Outcome,
    /// Why the case did not pass; of one that passed nothing.
    pub why: Vec<u8>,
}
