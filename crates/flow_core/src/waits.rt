ghost use Rattle.std.specs.Prelude.{◌≡◌, [], ◌∷◌, ◌++◌, ◌-◌, ◌<◌, ◌≤◌, OnOk, length, slice_index, slice_set};
ghost use Rattle.flow_core_laws.specs.Limits.{activations_limit};
ghost use Rattle.flow_core.specs.Waits.{OpensFull, OpensMore};

use os_io::Memory;
use std::alloc::Global;

/// How many elements each frame misses, and the frames that miss none, in the order in which they
/// came to it.
#[derive(Debug, Drop)]
pub struct Waits {
    pub missing: Vec<u32>,
    pub opened: Vec<u32>,
}

impl Waits {
    pub(crate) fn new(alloc: Global) -> Waits
        ensures empty { result.missing.items ≡ [] }
        ensures full { OpensFull result }
    {
        Waits {
            missing: Vec::new(alloc),
            opened: Vec::new(alloc),
        }
    }

    /// Adds the next frame, with the number of elements that it misses.
    pub(crate) fn add(&mut self, wait: u32) -> Result<(), Memory>
        requires few { length self.old.missing.items < activations_limit }
        requires full { OpensFull self.old }
        ensures added { OnOk result (self.new.missing.items ≡ self.old.missing.items ++ wait ∷ []) }
        ensures full { OnOk result (OpensFull self.new) }
    {
        let frame = self.missing.len() as u32;
        self.missing.push(wait)?;
        if wait == 0 {
            self.opened.push(frame)?;
        }
        Ok(())
    }

    /// A frame got `count` elements; where it misses none now, it opens.
    pub(crate) fn lower(&mut self, frame: u32, count: u32) -> Result<(), Memory>
        requires exists { frame < length self.old.missing.items }
        requires some { 1 ≤ count }
        requires fits { count ≤ slice_index self.old.missing.items frame }
        requires full { OpensFull self.old }
        ensures lowered { OnOk result (self.new.missing.items
            ≡ slice_set self.old.missing.items frame (slice_index self.old.missing.items frame - count)) }
        ensures full { OnOk result (OpensFull self.new) }
        ensures opens { OnOk result (OpensMore self.old self.new) }
    {
        let left = self.missing[frame as usize] - count;
        self.missing[frame as usize] = left;
        if left == 0 {
            self.opened.push(frame)?;
        }
        Ok(())
    }
}
