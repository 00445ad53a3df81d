ghost use Rattle.std.specs.Prelude.{◌≡◌, ◌≤◌, All, IfOk};
ghost use Rattle.flow_core_laws.specs.Limits.{budget_limit, input_limit};
ghost use Rattle.control_run.specs.Stretches.{MainTakes};
ghost use Rattle.os_code.specs.Codes.{parts_of};
ghost use Rattle.os_code.specs.Control.{ControlEnds};
ghost use Rattle.os_code.specs.Outcomes.{main_control};
ghost use Rattle.os_code.specs.Tasks.{Fits};

use control_run::ControlRun;
use flow_core_laws::Activation;
use os_code::Code;
use os_io::{List, Memory};
use osview_steps::Taken;
use std::alloc::Global;

/// The activations that `main` of a code created, in order, and what it took.
#[derive(Debug, Drop)]
pub(crate) struct MainRun {
    pub(crate) activations: List<Activation>,
    pub(crate) taken: Taken,
}

/// Runs `main` of a code to its end, over an input of `input_len` bytes.
pub(crate) fn run_main(
    alloc: Global,
    code: &Code,
    input_len: u32,
    budget: u64,
) -> Result<MainRun, Memory>
    requires input { input_len ≤ input_limit }
    requires budget { budget ≤ budget_limit }
    ensures activations { IfOk result (λ run. run.activations ≡ (main_control (parts_of code.now) input_len budget).activations) }
    ensures fit { IfOk result (λ run. All (Fits (parts_of code.now)) run.activations) }
    ensures steps { IfOk result (λ run. ControlEnds (parts_of code.now) input_len budget (main_control (parts_of code.now) input_len budget) run.taken.steps) }
    ensures turns { IfOk result (λ run. MainTakes (parts_of code.now) input_len budget run.taken.turns) }
{
    let mut run = ControlRun::new(alloc, code, input_len, budget)?;
    let mut activations = List::new(alloc);
    run.advance(&mut activations, u32::MAX)?;
    match run.steps() {
        None => unreachable!(),
        Some(steps) => match run.turns() {
            None => unreachable!(),
            Some(turns) => Ok(MainRun {
                activations,
                taken: Taken { steps, turns },
            }),
        },
    }
}
