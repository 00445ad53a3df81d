ghost use Rattle.std.specs.Prelude.{◌≡◌, None, slice_index_or};

use crate::elem::Elem;
use crate::task_end::TaskEnd;
use os_io::List;

/// What a run of a plan came to.
#[derive(Debug, Drop)]
pub struct Ends {
    /// The end of each activation; none where it is starved.
    pub ends: List<Option<TaskEnd>>,
    /// The element of each sink cell, a value or poison; none where it isn't there.
    pub output: List<Option<Elem>>,
}

impl Ends {
    /// The end of an activation, if it has one.
    pub fn end_of(&self, activation: u32) -> Option<TaskEnd>
        ensures { result ≡ slice_index_or self.now.ends activation None }
    {
        match self.ends.as_slice().get(activation as usize) {
            Some(end) => *end,
            None => None,
        }
    }
}
