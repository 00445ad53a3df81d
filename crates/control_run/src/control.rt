ghost use Rattle.std.specs.Prelude.{◌≡◌, ◌≤◌, All, IfOk};
ghost use Rattle.flow_core_laws.specs.Limits.{budget_limit, input_limit};
ghost use Rattle.os_code.specs.Codes.{parts_of};
ghost use Rattle.os_code.specs.Outcomes.{main_control};
ghost use Rattle.os_code.specs.Tasks.{Fits};
ghost use Rattle.stream_match_layouts.specs.Lawful.{AreLawful};

use crate::stretches::ControlRun;
use flow_core_laws::Control;
use os_code::Code;
use os_io::{List, Memory};
use std::alloc::Global;

/// Runs `main` of a code to its end: the activations that it creates, in order, and how it ended.
///
/// The input has `input_len` bytes; the budget is in turns: each iteration of a loop, each call and each tick takes one. It ends
/// within `(budget + 1) * (code length + 1)` steps. It takes memory for what the longest chain of calls needs, a number
/// for each stream, and for each activation its captured values and its claims; where that is wanting nothing of it is
/// left.
pub fn run_control(
    alloc: Global,
    code: &Code,
    input_len: u32,
    budget: u64,
) -> Result<Control, Memory>
    requires input { input_len ≤ input_limit }
    requires budget { budget ≤ budget_limit }
    // it is exactly the machine's meaning of `main`
    ensures exact { IfOk result (λ made. made ≡ main_control (parts_of code.now) input_len budget) }
    // each activation fits the code, and they are what a layout takes
    ensures fit { IfOk result (λ made. All (Fits (parts_of code.now)) made.activations) }
    ensures lawful { IfOk result (λ made. AreLawful code.now.streams made.activations) }
{
    let mut run = ControlRun::new(alloc, code, input_len, budget)?;
    let mut activations = List::new(alloc);
    run.advance(&mut activations, u32::MAX)?;
    match run.end() {
        Some(end) => Ok(Control { activations, end }),
        None => unreachable!(),
    }
}
