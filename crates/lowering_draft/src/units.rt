ghost use Rattle.std.specs.Prelude.{◌≡◌, OnOk};
ghost use Rattle.lowering_draft.specs.Emission.Units.{no_units, unit_from};

use crate::draft::Draft;
use os_code::{CodeUnit, Site};
use os_io::{List, Memory};
use std::alloc::Global;

/// A code while it is made: the draft of its instructions, and its units and sites so far.
#[derive(Debug, Drop)]
pub struct Units {
    pub draft: Draft,
    pub units: List<CodeUnit>,
    pub sites: List<Site>,
    /// The number of the unit of `main`, once it is there.
    pub main: u32,
}

impl Units {
    /// A code of which no unit is made yet.
    pub fn new(alloc: Global) -> Units
        ensures { result ≡ no_units }
    {
        Units {
            draft: Draft::new(alloc),
            units: List::new(alloc),
            sites: List::new(alloc),
            main: 0,
        }
    }

    /// Adds a unit whose instructions were drafted: those from a place on.
    pub fn add(&mut self, start: usize, args: u32, slots: u32) -> Result<(), Memory>
        ensures { OnOk result (self.new ≡ unit_from start args slots self.old) }
    {
        // 2^32 instructions wouldn't fit into memory.
        let stack = u32::try_from(self.draft.instrs.len().saturating_sub(start)).map_err(
            |_| Memory,
        )?;
        let start = u32::try_from(start).map_err(|_| Memory)?;
        self.units.push(CodeUnit {
            start,
            args,
            slots,
            stack,
        })
    }
}
