ghost use Rattle.std.specs.Prelude.{◌≡◌, ◌≤◌, All, IfOk, length};
ghost use Rattle.flow_core_laws.specs.Limits.{budget_limit, workers_limit};
ghost use Rattle.epoch_run_bodies.specs.Frames.{code_ends};
ghost use Rattle.os_code.specs.Codes.{parts_of};
ghost use Rattle.os_code.specs.Tasks.{Fits};
ghost use Rattle.stream_match_layouts.specs.Layout.{IsLayout, IsLayoutOf};

use crate::pace::Pace;
use crate::plan::run_plan;
use epoch_run_bodies::TaskBodies;
use epoch_run_bodies::laws::bodies_serve;
use flow_core_laws::{Ends, laws};
use os_io::Memory;
use std::alloc::Global;
use std::thread::Threads;
use stream_match::{Layout, build};
use task_workers::Gate;

/// Runs all activations of a layout by one plan, by `workers` workers.
pub(crate) fn run_at_once<R: Threads + Sync, G: Gate>(
    rt: &R,
    alloc: Global,
    bodies: &TaskBodies,
    layout: &Layout,
    input: &[u8],
    workers: u32,
    gate: &G,
) -> Result<Ends, Memory>
    requires workers { (1 ≤ workers) × (workers ≤ workers_limit) }
    requires budget { bodies.now.budget ≤ budget_limit }
    requires fit { All (Fits (parts_of bodies.now.code.now)) bodies.now.activations.now }
    requires whole { IsLayout layout.now }
    requires laid { IsLayoutOf layout.now bodies.now.activations.now }
    requires input { layout.now.input_len ≡ length input.now }
    ensures { IfOk result (λ ends. ends
        ≡ code_ends (parts_of bodies.now.code.now) bodies.now.activations.now input.now bodies.now.budget) }
{
    bodies_serve();
    laws::plan_meaning();
    let plan = build(alloc, layout, input)?;
    run_plan(rt, alloc, &plan, bodies, workers, gate, Pace::Unknown)
}
