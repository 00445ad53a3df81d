ghost use Rattle.std.specs.Prelude.{◌≡◌, ◌≤◌, All, IfOk, length};
ghost use Rattle.epoch_run_bodies.specs.Frames.{frame_outcome};
ghost use Rattle.flow_core_laws.specs.Limits.{budget_limit};
ghost use Rattle.flow_core_laws.specs.Streams.{stream_meaning};
ghost use Rattle.os_code.specs.Codes.{parts_of};
ghost use Rattle.os_code.specs.Tasks.{Fits};
ghost use Rattle.osview_outcomes.specs.Outcomes.{AreOutcomesOf};
ghost use Rattle.stream_match_layouts.specs.Layout.{IsLayout, IsLayoutOf};

use epoch_run_bodies::TaskBodies;
use epoch_run_bodies::laws::bodies_serve;
use flow_core_laws::{Activation, laws};
use os_code::Code;
use os_io::Memory;
use osview_outcomes::{Outcomes, outcomes};
use std::alloc::Global;
use stream_match::{Layout, build};

/// Runs the tasks of activations over an input on one thread, and keeps how each ended and what it wrote.
pub(crate) fn task_outcomes(
    alloc: Global,
    code: &Code,
    activations: &[Activation],
    layout: &Layout,
    input: &[u8],
    budget: u64,
) -> Result<Outcomes, Memory>
    requires budget { budget ≤ budget_limit }
    requires fit { All (Fits (parts_of code.now)) activations.now }
    requires layout { IsLayout layout.now }
    requires laid { IsLayoutOf layout.now activations.now }
    requires input { length input.now ≡ layout.now.input_len }
    ensures { IfOk result (λ outcomes. AreOutcomesOf outcomes
        (stream_meaning activations.now input.now (frame_outcome (parts_of code.now) activations.now budget))) }
{
    bodies_serve();
    laws::plan_meaning();
    let plan = build(alloc, layout, input)?;
    let bodies = TaskBodies {
        code,
        activations,
        budget,
    };
    let kept = outcomes(alloc, &plan, &bodies)?;
    Ok(kept)
}
