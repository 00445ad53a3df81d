ghost use Rattle.std.specs.Prelude.{◌≤◌, IfOk, length};
ghost use Rattle.flow_core_laws.specs.Limits.{budget_limit, input_limit};
ghost use Rattle.os_code.specs.Codes.{parts_of};
ghost use Rattle.osrun_core_run.specs.Planned.{IsPlannedOf};

use crate::lay_out::lay_out;
use control_run::run_control;
use flow_core_laws::{Control, Plan};
use os_code::Code;
use os_io::Memory;
use std::alloc::Global;
use stream_match::{Layout, build};

/// A run before any of its activations runs: what the control program created, with the positions of all of it and one plan.
#[derive(Debug, Drop)]
pub(crate) struct Planned {
    /// The activations, and how the control program ended.
    pub(crate) control: Control,
    /// The positions of the activations.
    pub(crate) layout: Layout,
    /// The plan of all activations over the input: frame f is activation f.
    pub(crate) plan: Plan,
}

/// Plans the whole run of a code over an input.
pub(crate) fn plan_run(
    alloc: Global,
    code: &Code,
    control_budget: u64,
    input: &[u8],
) -> Result<Planned, Memory>
    requires budget { control_budget ≤ budget_limit }
    requires few { length input.now ≤ input_limit }
    ensures { IfOk result (λ planned. IsPlannedOf control_budget (parts_of code.now) input.now
        planned.control planned.layout planned.plan) }
{
    let control = run_control(alloc, code, input.len() as u32, control_budget)?;
    let layout = lay_out(alloc, code, &control, input)?;
    let plan = build(alloc, &layout, input)?;
    Ok(Planned {
        control,
        layout,
        plan,
    })
}
