//! Where the regions of units end.

ghost use Rattle.std.specs.Prelude.{◌≡◌, ◌<◌, ◌≤◌, length, IfOk, Some};
ghost use Rattle.os_code.specs.Codes.{parts_of};
ghost use Rattle.os_code.specs.NeedTables.{IsMarked};
ghost use Rattle.os_code.specs.Parts.{region_end, unit_at};
ghost use Rattle.os_code.specs.declared.unit.CodeUnit.{CodeUnit};

use os_code::{Code, end_of_region};
use os_io::Memory;
use std::alloc::Global;

/// The places at which units start, marked.
pub(crate) fn mark_starts(alloc: Global, code: &Code) -> Result<Vec<bool>, Memory>
    ensures { IfOk result (λ marks. IsMarked (parts_of code.now) marks.items) }
{
    let mut marks = vec![in alloc; false; code.instrs.len()]?;
    for unit in code.units.as_slice() {
        marks[unit.start as usize] = true;
    }
    Ok(marks)
}

/// The end of the region of a unit that starts at a place.
pub(crate) fn region_end(code: &Code, marks: &[bool], start: u32) -> usize
    requires marked { IsMarked (parts_of code.now) marks.now }
    requires inside { start < length code.now.instrs }
    ensures after { start < result }
    ensures ends { (unit : CodeUnit) → unit.start ≡ start → result ≡ region_end (parts_of code.now) unit }
{
    end_of_region(marks, start as usize)
}
