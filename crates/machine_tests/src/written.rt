//! Codes written out: a task, the functions that it calls, and `main`, which is the last unit. There are three streams,
//! and one site, at line 90.

ghost use Rattle.std.specs.Prelude.{◌≡◌, ◌≤◌, length, true, IfOk};
ghost use Rattle.os_code.specs.Checking.{is_valid};
ghost use Rattle.os_code.specs.Codes.{parts_of};
ghost use Rattle.machine_tests.specs.Written.{written_code};

use os_code::{Code, CodeUnit, Instr, Parts, Site, SiteItem};
use os_io::{List, Memory};
use std::alloc::Global;

/// The items of a slice, as a list.
pub(crate) fn list_of<T: Copy>(alloc: Global, items: &[T]) -> Result<List<T>, Memory>
    ensures { IfOk result (λ list. list ≡ items.now) }
{
    let mut list = List::new(alloc);
    for item in items {
        list.push(*item)?;
    }
    Ok(list)
}

/// The code of these instructions.
pub(crate) fn code_of(
    alloc: Global,
    instrs: &[Instr],
    units: &[CodeUnit],
    task: u32,
    captured: &[u32],
    items: &[SiteItem],
) -> Result<Code, Memory>
    requires some { 1 ≤ length units.now }
    requires few { length units.now ≤ 1000 }
    requires valid { is_valid (written_code instrs.now units.now task captured.now items.now) ≡ true }
    ensures { IfOk result (λ code. parts_of code ≡ written_code instrs.now units.now task captured.now items.now) }
{
    let mut sites = List::new(alloc);
    sites.push(Site {
        unit: task,
        line: 90,
        captured: list_of(alloc, captured)?,
        items: list_of(alloc, items)?,
    })?;
    Code::new(
        alloc,
        Parts {
            instrs: list_of(alloc, instrs)?,
            units: list_of(alloc, units)?,
            sites,
            main: (units.len() - 1) as u32,
            streams: 3,
        },
    )
}
