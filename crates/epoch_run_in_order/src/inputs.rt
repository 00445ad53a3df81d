ghost use Rattle.std.specs.Prelude.{◌≤◌, vec_len};

use std::alloc::Global;

/// What an activation reads: the values, in order, and the least root of what is poison.
#[derive(Drop)]
pub(crate) struct Inputs {
    /// Places for values, of which the first ones hold those that were read.
    pub places: Vec<i32>,
    /// How many of the places hold a value that was read.
    pub count: usize,
    pub root: Option<u32>,
    ghost within: { count ≤ vec_len places },
}

impl Inputs {
    /// Inputs before anything is read.
    pub fn new(alloc: Global) -> Inputs {
        Inputs {
            places: Vec::new(alloc),
            count: 0,
            root: None,
        }
    }
}
