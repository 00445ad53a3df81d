use flow_core::TaskEnd;
use os_io::List;

/// What the frames of a plan came to.
#[derive(Debug, Drop)]
pub struct Outcomes {
    /// The end of each frame; none where it is starved.
    pub ends: Vec<Option<TaskEnd>>,
    /// What each frame read that has an end, without what is poison: the values of its input windows, in clause order and then by
    /// position. Of the others it is nothing.
    pub inputs: List<List<i32>>,
    /// What each frame wrote that is `Done`: the values of its output windows, in clause order and then by position. Of the
    /// others it may be anything.
    pub outputs: List<List<i32>>,
    /// The frames that have an end, each behind those that it waits for.
    pub order: Vec<u32>,
}
