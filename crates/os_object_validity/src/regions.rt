//! Where units stand: where each region ends.

ghost use Rattle.std.specs.Prelude.{IfOk, IfSome, IfNone};
ghost use Rattle.os_code.specs.IsValid.{HasRegions, IsValid};
ghost use Rattle.os_code.specs.NeedTables.{IsMarked};
ghost use Rattle.os_object_validity.specs.Tables.{AreEnds};

use os_code::{Parts, end_of_region};
use os_io::Memory;
use std::alloc::Global;

/// The end of each unit's region; or none, where the units don't stand as regions that cover the code.
pub(crate) fn ends_of(alloc: Global, parts: &Parts) -> Result<Option<Vec<usize>>, Memory>
    ensures some { IfOk result (λ found. IfSome found (λ ends. HasRegions parts.now × AreEnds parts.now ends.items)) }
    ensures none { IfOk result (λ found. IfNone found (IsValid parts.now → ⊥)) }
{
    let Some(marks) = starts_of(alloc, parts)? else {
        return Ok(None);
    };
    let mut ends = Vec::with_capacity(alloc, parts.units.len())?;
    for unit in parts.units.as_slice() {
        ends.push(end_of_region(marks.as_slice(), unit.start as usize))?;
    }
    Ok(Some(ends))
}

/// The places at which units start, marked; or none, where two start at one place, one at none, or none at the first.
fn starts_of(alloc: Global, parts: &Parts) -> Result<Option<Vec<bool>>, Memory>
    ensures some { IfOk result (λ found. IfSome found (λ marks. HasRegions parts.now × IsMarked parts.now marks.items)) }
    ensures none { IfOk result (λ found. IfNone found (IsValid parts.now → ⊥)) }
{
    if parts.instrs.len() > u32::MAX as usize {
        return Ok(None);
    }
    let mut marks = vec![in alloc; false; parts.instrs.len()]?;
    for unit in parts.units.as_slice() {
        let start = unit.start as usize;
        if start >= marks.len() {
            return Ok(None);
        }
        if marks[start] {
            return Ok(None);
        }
        marks[start] = true;
    }
    if marks.is_empty() {
        return Ok(None);
    }
    if !marks[0] {
        return Ok(None);
    }
    Ok(Some(marks))
}
