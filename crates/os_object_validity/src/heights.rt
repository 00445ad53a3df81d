//! The heights of the operand stack, along the ways from the starts of units.

ghost use Rattle.std.specs.Prelude.{◌≡◌, ℕ, ◌+◌, ◌*◌, ◌<◌, ◌≤◌, true, false, length, IfOk, IfSome, IfNone, IsTrue};
ghost use Rattle.os_code.specs.Checking.{height_in};
ghost use Rattle.os_code.specs.Effects as effects;
ghost use Rattle.os_code.specs.IsValid.{HasRegions, HasTargets, HasHeights, Reaches};
ghost use Rattle.os_code.specs.Parts.{instr_at, unit_at, region_end, is_within};
ghost use Rattle.os_object_validity.specs.Tables.{AreEnds, IsExplored, IsEntry, IsKept, FitsStack, unknown};

use crate::effects::{falls_through, jump_of, operands_of, pushes};
use crate::places::Region;
use os_code::{CodeUnit, Instr, Parts};
use os_io::Memory;
use std::alloc::Global;

/// A place that was reached, whose instruction wasn't looked at yet.
#[derive(Clone, Copy, Debug, PartialEq, Eq)]
pub(crate) struct Waiting {
    /// The number of the unit that the place is in.
    pub number: usize,
    pub place: usize,
    pub height: u32,
}

/// Whether each instruction that can be reached from its unit's start is reached with one height of the operand stack, which
/// fits. Each place is visited once.
pub(crate) fn heights_fit(alloc: Global, parts: &Parts, ends: &[usize]) -> Result<bool, Memory>
    requires regions { HasRegions parts.now }
    requires targets { HasTargets parts.now }
    requires ends { AreEnds parts.now ends.now }
    ensures yes { IfOk result (λ fits. fits ≡ true → HasHeights parts.now) }
    ensures no { IfOk result (λ fits. fits ≡ false → HasHeights parts.now → ⊥) }
{
    let mut heights = vec![in alloc; None; parts.instrs.len()]?;
    let mut waiting = starts_of(alloc, parts, heights.as_mut_slice())?;
    while let Some(next) = waiting.pop() {
        let region = Region {
            number: next.number,
            unit: parts.units.as_slice()[next.number],
            end: ends[next.number],
        };
        if !visit(parts, region, next, heights.as_mut_slice(), &mut waiting)? {
            return Ok(false);
        }
    }
    Ok(true)
}

/// The starts of all units, with no operands on the stack.
fn starts_of(
    alloc: Global,
    parts: &Parts,
    heights: &mut [Option<u32>],
) -> Result<Vec<Waiting>, Memory>
    requires regions { HasRegions parts.now }
    requires counted { length heights.old ≡ length parts.now.instrs }
    requires unknown { (place : ℕ) → height_in heights.old place ≡ None }
    ensures { IfOk result (λ waiting. IsExplored parts.now heights.new waiting.items (λ place. ⊥)) }
{
    let mut waiting = Vec::with_capacity(alloc, parts.units.len())?;
    for (number, unit) in parts.units.as_slice().iter().enumerate() {
        let place = unit.start as usize;
        heights[place] = Some(0);
        waiting.push(Waiting {
            number,
            place,
            height: 0,
        })?;
    }
    Ok(waiting)
}

/// Looks at an instruction that was reached: whether its height fits, and where it leads to.
fn visit(
    parts: &Parts,
    region: Region,
    at: Waiting,
    heights: &mut [Option<u32>],
    waiting: &mut Vec<Waiting>,
) -> Result<bool, Memory>
    requires regions { HasRegions parts.now }
    requires targets { HasTargets parts.now }
    requires is_unit { unit_at parts.now region.number ≡ Some region.unit }
    requires ends { region.end ≡ region_end parts.now region.unit }
    requires number { at.number ≡ region.number }
    requires entry { IsEntry parts.now heights.old at }
    requires explored { IsExplored parts.now heights.old waiting.old.items (λ place. place ≡ at.place) }
    ensures yes { IfOk result (λ fits. fits ≡ true → IsExplored parts.now heights.new waiting.new.items (λ place. ⊥)) }
    ensures no { IfOk result (λ fits. fits ≡ false → HasHeights parts.now → ⊥) }
    ensures fewer { IfOk result (λ fits. 2 * unknown heights.new + length waiting.new.items ≤ 2 * unknown heights.old + length waiting.old.items) }
{
    let instr = parts.instrs.as_slice()[at.place];
    let Some(after) = height_after(parts, region.unit, instr, at.height) else {
        return Ok(false);
    };
    if !go_on(parts, region, at, instr, after, heights, waiting)? {
        return Ok(false);
    }
    if !jump(parts, region, at, instr, after, heights, waiting)? {
        return Ok(false);
    }
    Ok(true)
}

/// The height behind an instruction; or none, where operands are missing or it passes the unit's stack before or after.
fn height_after(parts: &Parts, unit: CodeUnit, instr: Instr, height: u32) -> Option<u32>
    ensures some { IfSome result (λ after. FitsStack parts.now unit height instr × (after ≡ effects.height_after parts.now instr height)) }
    ensures none { IfNone result (FitsStack parts.now unit height instr → ⊥) }
{
    let taken = operands_of(parts, instr);
    if taken > height as usize || height > unit.stack {
        return None;
    }
    let after = height as usize - taken + pushes(instr);
    if after > unit.stack as usize {
        return None;
    }
    Some(after as u32)
}

/// Goes on to the next place, where the instruction may.
fn go_on(
    parts: &Parts,
    region: Region,
    at: Waiting,
    instr: Instr,
    after: u32,
    heights: &mut [Option<u32>],
    waiting: &mut Vec<Waiting>,
) -> Result<bool, Memory>
    requires regions { HasRegions parts.now }
    requires is_unit { unit_at parts.now region.number ≡ Some region.unit }
    requires ends { region.end ≡ region_end parts.now region.unit }
    requires reached { Reaches parts.now region.unit at.place at.height }
    requires is_within { IsTrue (is_within parts.now region.unit at.place) }
    requires is_instr { instr_at parts.now at.place ≡ Some instr }
    requires after { after ≡ effects.height_after parts.now instr at.height }
    requires explored { IsExplored parts.now heights.old waiting.old.items (λ place. place ≡ at.place) }
    ensures yes { IfOk result (λ fits. fits ≡ true → IsExplored parts.now heights.new waiting.new.items (λ place. place ≡ at.place)) }
    ensures next { IfOk result (λ fits. fits ≡ true → IsTrue (effects.falls_through instr) →
        IsTrue (is_within parts.now region.unit (at.place + 1)) × (height_in heights.new (at.place + 1) ≡ Some after)) }
    ensures kept { IfOk result (λ fits. IsKept heights.old heights.new) }
    ensures no { IfOk result (λ fits. fits ≡ false → HasHeights parts.now → ⊥) }
    ensures fewer { IfOk result (λ fits. 2 * unknown heights.new + length waiting.new.items ≤ 2 * unknown heights.old + length waiting.old.items) }
{
    if !falls_through(instr) {
        return Ok(true);
    }
    if at.place + 1 >= region.end {
        return Ok(false);
    }
    let next = Waiting {
        number: region.number,
        place: at.place + 1,
        height: after,
    };
    reach(parts, region.unit, next, at.place, heights, waiting)
}

/// Reaches the target of an instruction that may jump, with the height behind it.
fn jump(
    parts: &Parts,
    region: Region,
    at: Waiting,
    instr: Instr,
    after: u32,
    heights: &mut [Option<u32>],
    waiting: &mut Vec<Waiting>,
) -> Result<bool, Memory>
    requires regions { HasRegions parts.now }
    requires targets { HasTargets parts.now }
    requires is_unit { unit_at parts.now region.number ≡ Some region.unit }
    requires reached { Reaches parts.now region.unit at.place at.height }
    requires is_within { IsTrue (is_within parts.now region.unit at.place) }
    requires is_instr { instr_at parts.now at.place ≡ Some instr }
    requires after { after ≡ effects.height_after parts.now instr at.height }
    requires explored { IsExplored parts.now heights.old waiting.old.items (λ place. place ≡ at.place) }
    ensures yes { IfOk result (λ fits. fits ≡ true → IsExplored parts.now heights.new waiting.new.items (λ place. place ≡ at.place)) }
    ensures target { IfOk result (λ fits. fits ≡ true → (to : ℕ) → effects.jump_of instr ≡ Some to → height_in heights.new to ≡ Some after) }
    ensures kept { IfOk result (λ fits. IsKept heights.old heights.new) }
    ensures no { IfOk result (λ fits. fits ≡ false → HasHeights parts.now → ⊥) }
    ensures fewer { IfOk result (λ fits. 2 * unknown heights.new + length waiting.new.items ≤ 2 * unknown heights.old + length waiting.old.items) }
{
    let Some(to) = jump_of(instr) else {
        return Ok(true);
    };
    let target = Waiting {
        number: region.number,
        place: to as usize,
        height: after,
    };
    reach(parts, region.unit, target, at.place, heights, waiting)
}

/// Reaches a place with a height: it has that height, or gets it and waits, or has another one.
fn reach(
    parts: &Parts,
    unit: CodeUnit,
    to: Waiting,
    from: usize,
    heights: &mut [Option<u32>],
    waiting: &mut Vec<Waiting>,
) -> Result<bool, Memory>
    requires regions { HasRegions parts.now }
    requires is_unit { unit_at parts.now to.number ≡ Some unit }
    requires reached { Reaches parts.now unit to.place to.height }
    requires is_within { IsTrue (is_within parts.now unit to.place) }
    requires explored { IsExplored parts.now heights.old waiting.old.items (λ place. place ≡ from) }
    ensures yes { IfOk result (λ fits. fits ≡ true → IsExplored parts.now heights.new waiting.new.items (λ place. place ≡ from)) }
    ensures reached { IfOk result (λ fits. fits ≡ true → height_in heights.new to.place ≡ Some to.height) }
    ensures kept { IfOk result (λ fits. IsKept heights.old heights.new) }
    ensures no { IfOk result (λ fits. fits ≡ false → HasHeights parts.now → ⊥) }
    ensures fewer { IfOk result (λ fits. 2 * unknown heights.new + length waiting.new.items ≤ 2 * unknown heights.old + length waiting.old.items) }
{
    if let Some(height) = heights[to.place] {
        return Ok(height == to.height);
    }
    heights[to.place] = Some(to.height);
    waiting.push(to)?;
    Ok(true)
}
