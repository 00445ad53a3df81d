//! The places that jumps go to.

ghost use Rattle.std.specs.Prelude.{◌≡◌, ℕ, ◌<◌, ◌||◌, false, length, slice_index_or, IfOk};
ghost use Rattle.os_code.specs.Codes.{parts_of};
ghost use Rattle.os_code.specs.Effects.{jump_of};
ghost use Rattle.oscc_text.specs.Rows.{goes_to};
ghost use Rattle.oscc_text.specs.Targets.{AreTargets};

use os_code::{Code, Instr};
use os_io::Memory;
use std::alloc::Global;

/// The place that an instruction jumps to.
fn target_of(instr: Instr) -> Option<u32>
    ensures { result ≡ jump_of instr }
{
    match instr {
        Instr::Jump(to) => Some(to),
        Instr::JumpZero(to) => Some(to),
        _ => None,
    }
}

/// Marks a place, if it is one of the table's.
fn mark(marks: &mut [bool], target: Option<u32>)
    ensures counted { length marks.new ≡ length marks.old }
    ensures marked { (place : ℕ) → place < length marks.old
        → slice_index_or marks.new place false ≡ (slice_index_or marks.old place false || goes_to place target) }
{
    if let Some(to) = target {
        let to = to as usize;
        if to < marks.len() {
            marks[to] = true;
        }
    }
}

/// The places that jumps go to, marked.
pub(crate) fn mark_targets(alloc: Global, code: &Code) -> Result<Vec<bool>, Memory>
    ensures { IfOk result (λ marks. AreTargets (parts_of code.now) marks.items) }
{
    let mut marks = vec![in alloc; false; code.instrs.len()]?;
    for instr in code.instrs.as_slice() {
        mark(&mut marks, target_of(*instr));
    }
    Ok(marks)
}
