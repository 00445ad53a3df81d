//! What the chains of calls of a code need.

ghost use Rattle.std.specs.Prelude.{◌≡◌, ℕ, ◌+◌, ◌<◌, length, slice_get, IfOk};
ghost use Rattle.os_code.specs.declared.unit.CodeUnit.{CodeUnit};
ghost use Rattle.os_code.specs.Chains.{IsLargest};
ghost use Rattle.os_code.specs.IsValid.{HasRegions, IsValid};
ghost use Rattle.os_code.specs.Needs.{most_called};
ghost use Rattle.os_code.specs.NeedTables.{stack_in, slots_in, LargestFrom, IsMarked, Tells};

use crate::instr::Instr;
use crate::parts::Parts;
use crate::region::end_of_region;
use os_io::Memory;
use std::alloc::Global;

/// The largest sums over the chains of calls that begin at a unit, or over all chains.
#[derive(Clone, Copy, Debug, PartialEq, Eq)]
pub(crate) struct Need {
    pub stack: u64,
    pub slots: u64,
}

/// Marks the places at which a unit starts.
fn mark_starts(alloc: Global, parts: &Parts) -> Result<Vec<bool>, Memory>
    requires { HasRegions parts.now }
    ensures { IfOk result (λ marks. IsMarked parts.now marks.items) }
{
    let mut marks = vec![in alloc; false; parts.instrs.len()]?;
    for unit in parts.units.as_slice() {
        marks[unit.start as usize] = true;
    }
    Ok(marks)
}

/// What the calls of a region need at most, where the units that they name are in the table.
fn most_called_of(region: &[Instr], table: &[Need]) -> Need
    requires { (place callee : ℕ) → slice_get region.now place ≡ Some (Instr.Call callee) → callee < length table.now }
    ensures stack { result.stack ≡ most_called (stack_in table.now) region.now }
    ensures slots { result.slots ≡ most_called (slots_in table.now) region.now }
{
    let mut most = Need { stack: 0, slots: 0 };
    for instr in region {
        if let Instr::Call(callee) = instr {
            let need = table[*callee as usize];
            most.stack = most.stack.max(need.stack);
            most.slots = most.slots.max(need.slots);
        }
    }
    most
}

/// What the chains from a unit need at most, where the table has the units below it.
fn unit_need(parts: &Parts, marks: &[bool], number: usize, table: &[Need]) -> Need
    requires valid { IsValid parts.now }
    requires marked { IsMarked parts.now marks.now }
    requires there { number < length parts.now.units }
    requires known { Tells parts.now table.now number }
    ensures stack { LargestFrom parts.now (λ (unit : CodeUnit). unit.stack) number result.stack }
    ensures slots { LargestFrom parts.now (λ (unit : CodeUnit). unit.slots) number result.slots }
{
    let unit = parts.units.as_slice()[number];
    let start = unit.start as usize;
    let end = end_of_region(marks, start);
    let called = most_called_of(&parts.instrs.as_slice()[start..end], table);
    Need {
        stack: u64::from(unit.stack) + called.stack,
        slots: u64::from(unit.slots) + called.slots,
    }
}

/// What the chains of calls of a code need at most.
pub(crate) fn needs(alloc: Global, parts: &Parts) -> Result<Need, Memory>
    requires { IsValid parts.now }
    ensures stack { IfOk result (λ need. IsLargest parts.now (λ (unit : CodeUnit). unit.stack) need.stack) }
    ensures slots { IfOk result (λ need. IsLargest parts.now (λ (unit : CodeUnit). unit.slots) need.slots) }
{
    let marks = mark_starts(alloc, parts)?;
    let mut table = Vec::new(alloc);
    let mut largest = Need { stack: 0, slots: 0 };
    for number in 0..parts.units.len() {
        let need = unit_need(parts, marks.as_slice(), number, table.as_slice());
        largest.stack = largest.stack.max(need.stack);
        largest.slots = largest.slots.max(need.slots);
        table.push(need)?;
    }
    Ok(largest)
}
