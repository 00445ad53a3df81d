ghost use Rattle.std.specs.Prelude.{◌≡◌, ◌≤◌, All, IfOk, length, map};
ghost use Rattle.epoch_run_bodies.specs.Frames.{frame_outcome};
ghost use Rattle.flow_core_laws.specs.Limits.{activations_limit, budget_limit};
ghost use Rattle.flow_core_laws.specs.Streams.{stream_meaning, stream_reads};
ghost use Rattle.os_code.specs.Codes.{parts_of};
ghost use Rattle.os_code.specs.Tasks.{Fits};
ghost use Rattle.osview_chains.specs.Chains.{IsLongest};
ghost use Rattle.osview_steps.specs.Steps.{AreRuns, steps_if, steps_of_runs};
ghost use Rattle.stream_match_layouts.specs.Layout.{IsLayout, IsLayoutOf};

use crate::runs::{Taken, TaskRun};
use crate::taking::all_runs;
use epoch_run_bodies::TaskBodies;
use epoch_run_bodies::laws::bodies_serve;
use flow_core_laws::{Activation, laws};
use os_code::Code;
use os_io::{List, Memory};
use osview_chains::longest_chain;
use osview_outcomes::outcomes;
use std::alloc::Global;
use stream_match::build;
use stream_match_layouts::Layout;

/// What was measured of a run.
#[derive(Debug, Drop)]
pub struct Measured {
    /// What each activation took.
    pub runs: List<TaskRun>,
    /// How many steps a longest chain takes, of activations that wait for one another.
    pub longest: u128,
}

/// The steps of an activation, if it ran.
fn steps_if(took: Option<Taken>) -> Option<u64>
    ensures { result ≡ steps_if took }
{
    match took {
        Some(taken) => Some(taken.steps),
        None => None,
    }
}

/// The steps of each run.
fn steps_of_runs(alloc: Global, runs: &[TaskRun]) -> Result<List<Option<u64>>, Memory>
    ensures { IfOk result (λ steps. steps ≡ steps_of_runs runs.now) }
{
    let mut steps = List::with_capacity(alloc, runs.len())?;
    for run in runs {
        steps.push(steps_if(run.took))?;
    }
    Ok(steps)
}

/// Measures what activations take over an input, on one thread. Each task that runs is run twice: once for what it writes, and once
/// more, over what it read, for its steps and turns.
pub fn measure(
    alloc: Global,
    code: &Code,
    activations: &[Activation],
    layout: &Layout,
    input: &[u8],
    budget: u64,
) -> Result<Measured, Memory>
    requires budget { budget ≤ budget_limit }
    requires fit { All (Fits (parts_of code.now)) activations.now }
    requires layout { IsLayout layout.now }
    requires laid { IsLayoutOf layout.now activations.now }
    requires input { length input.now ≡ layout.now.input_len }
    ensures runs { IfOk result (λ measured. AreRuns (parts_of code.now) activations.now input.now budget
        (stream_meaning activations.now input.now (frame_outcome (parts_of code.now) activations.now budget)) measured.runs) }
    ensures longest { IfOk result (λ measured. IsLongest (stream_reads activations.now input.now) (steps_of_runs measured.runs) measured.longest) }
    ensures few { IfOk result (λ measured. length measured.runs ≤ activations_limit) }
{
    bodies_serve();
    laws::plan_meaning();
    let plan = build(alloc, layout, input)?;
    let bodies = TaskBodies {
        code,
        activations,
        budget,
    };
    let kept = outcomes(alloc, &plan, &bodies)?;
    let runs = all_runs(alloc, code, activations, &plan, &kept, budget)?;
    let steps = steps_of_runs(alloc, runs.as_slice())?;
    let longest = longest_chain(alloc, &plan, &kept.order, steps.as_slice())?;
    Ok(Measured { runs, longest })
}
