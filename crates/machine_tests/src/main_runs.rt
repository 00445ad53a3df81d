//! Runs of `main` in codes written out, whose task ends at once.

ghost use Rattle.std.specs.Prelude.{◌≡◌, ◌≤◌, length, true};
ghost use Rattle.flow_core_laws.specs.Limits.{budget_limit, input_limit};
ghost use Rattle.os_code.specs.Checking.{is_valid};
ghost use Rattle.machine_tests.specs.Written.{written_code};

use crate::written::code_of;
use control_run::run_control;
use flow_core_laws::Control;
use os_code::{CodeUnit, Instr, SiteItem};
use os_io::Memory;
use std::alloc::Global;

/// Runs `main` of the code of these instructions.
pub(crate) fn run_written(
    alloc: Global,
    instrs: &[Instr],
    units: &[CodeUnit],
    captured: &[u32],
    items: &[SiteItem],
    input_len: u32,
    budget: u64,
) -> Result<Control, Memory>
    requires some { 1 ≤ length units.now }
    requires few { length units.now ≤ 1000 }
    requires valid { is_valid (written_code instrs.now units.now 0 captured.now items.now) ≡ true }
    requires input { input_len ≤ input_limit }
    requires budget { budget ≤ budget_limit }
{
    let code = code_of(alloc, instrs, units, 0, captured, items)?;
    run_control(alloc, &code, input_len, budget)
}
