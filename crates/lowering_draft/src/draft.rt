ghost use Rattle.std.specs.Prelude.{◌≡◌, [], IfOk, OnOk, Some, slice_set};
ghost use Rattle.lowering_draft.specs.Draft.{next_label, with_instr, with_label, with_place, with_spawn};

use os_code::Instr;
use os_io::{List, Memory};
use std::alloc::Global;

/// Code while it is drafted. A jump names a label in the place of its target.
#[derive(Debug, Drop)]
pub struct Draft {
    pub instrs: List<Instr>,
    /// The place of each label, once it has one.
    pub places: List<Option<u32>>,
    /// How many tasks are spawned so far.
    pub spawned: u32,
}

/// The target of jumps, whose place may be found later.
#[derive(Clone, Copy, Debug, PartialEq, Eq)]
pub struct Label {
    pub number: u32,
}

impl Draft {
    /// A draft without instructions.
    pub fn new(alloc: Global) -> Draft
        ensures instrs { result.instrs ≡ [] }
        ensures places { result.places ≡ [] }
        ensures spawned { result.spawned ≡ 0 }
    {
        Draft {
            instrs: List::new(alloc),
            places: List::new(alloc),
            spawned: 0,
        }
    }

    /// Adds an instruction.
    pub fn emit(&mut self, instr: Instr) -> Result<(), Memory>
        ensures { OnOk result (self.new ≡ with_instr self.old instr) }
    {
        self.instrs.push(instr)
    }

    /// Emits the instruction that spawns the next task of the program.
    pub fn spawn(&mut self) -> Result<(), Memory>
        ensures { OnOk result (self.new ≡ with_spawn self.old) }
    {
        // 2^32 tasks wouldn't fit into memory.
        let next = self.spawned.checked_add(1).ok_or(Memory)?;
        self.instrs.push(Instr::Spawn(self.spawned))?;
        self.spawned = next;
        Ok(())
    }

    /// A new label, without a place.
    pub fn label(&mut self) -> Result<Label, Memory>
        ensures { IfOk result (λ label. (label ≡ next_label self.old) × (self.new ≡ with_label self.old)) }
    {
        // 2^32 labels wouldn't fit into memory.
        let number = u32::try_from(self.places.len()).map_err(|_| Memory)?;
        self.places.push(None)?;
        Ok(Label { number })
    }

    /// Gives a label the place of the next instruction.
    pub fn place(&mut self, label: Label) -> Result<(), Memory>
        ensures { OnOk result (self.new ≡ with_place self.old label) }
    {
        let at = u32::try_from(self.instrs.len()).map_err(|_| Memory)?;
        set(&mut self.places, label.number as usize, at);
        Ok(())
    }
}

/// Sets the place of a label that is there.
fn set(places: &mut List<Option<u32>>, number: usize, at: u32)
    ensures { places.new ≡ slice_set places.old number (Some at) }
{
    if number < places.len() {
        places.as_mut_slice()[number] = Some(at);
    }
}
