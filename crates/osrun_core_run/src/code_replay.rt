ghost use Rattle.std.specs.Prelude.{◌≡◌, ◌≤◌, ◌<◌, ◌^◌, ℕ, List, All, IfOk, length};
ghost use Rattle.epoch_run_bodies.specs.Frames.{frame_outcome};
ghost use Rattle.flow_core_laws.specs.Limits.{budget_limit, input_limit, workers_limit};
ghost use Rattle.flow_core_laws.specs.IsSound.{IsSound};
ghost use Rattle.flow_core_laws.specs.StandsFor.{StandsFor};
ghost use Rattle.os_code.specs.Codes.{parts_of};
ghost use Rattle.os_code.specs.Tasks.{Fits};
ghost use Rattle.osrun_core_run.specs.Planned.{IsPlannedOf};
ghost use Rattle.trace_replay_laws.specs.Answers.{IsAnswer};

use crate::planning::{Planned, plan_run};
use epoch_run::Budgets;
use epoch_run_bodies::TaskBodies;
use epoch_run_bodies::laws::bodies_serve;
use flow_core_laws::{Control, Plan};
use os_code::Code;
use os_io::{List, Memory};
use std::alloc::Global;
use trace_replay::{Replayed, replay};

/// Lists of activations, run again over the plan of a whole run.
#[derive(Debug, Drop)]
pub(crate) struct CodeReplay {
    /// The run, before any activation runs.
    pub(crate) planned: Planned,
    /// What the lists come to.
    pub(crate) replayed: Replayed,
}

/// Runs the lists of frames again over a plan: each frame runs the task of its activation.
fn replay_lists(
    alloc: Global,
    task_budget: u64,
    code: &Code,
    control: &Control,
    plan: &Plan,
    lists: &[List<u32>],
) -> Result<Replayed, Memory>
    requires budget { task_budget ≤ budget_limit }
    requires fit { All (Fits (parts_of code.now)) control.now.activations }
    requires sound { IsSound plan.now }
    requires stands { (input : List ℕ) × StandsFor plan.now control.now.activations input }
    requires lists { (1 ≤ length lists.now) × (length lists.now ≤ workers_limit) }
    requires short { All (λ list. length list < 2 ^ 32) lists.now }
    ensures { IfOk result (IsAnswer plan.now (frame_outcome (parts_of code.now) control.now.activations task_budget) lists.now) }
{
    let bodies = TaskBodies {
        code,
        activations: control.activations.as_slice(),
        budget: task_budget,
    };
    bodies_serve();
    replay(alloc, plan, &bodies, lists)
}

/// Runs lists of activations again, 1 to 64 of them: the activations are those that the code's `main` creates over an input.
pub(crate) fn replay_code(
    alloc: Global,
    budgets: Budgets,
    code: &Code,
    input: &[u8],
    lists: &[List<u32>],
) -> Result<CodeReplay, Memory>
    requires task_turns { budgets.task ≤ budget_limit }
    requires control_turns { budgets.control ≤ budget_limit }
    requires few { length input.now ≤ input_limit }
    requires lists { (1 ≤ length lists.now) × (length lists.now ≤ workers_limit) }
    requires short { All (λ list. length list < 2 ^ 32) lists.now }
    ensures planned { IfOk result (λ it. IsPlannedOf budgets.control (parts_of code.now) input.now
        it.planned.control it.planned.layout it.planned.plan) }
    ensures answer { IfOk result (λ it. IsAnswer it.planned.plan
        (frame_outcome (parts_of code.now) it.planned.control.activations budgets.task) lists.now it.replayed) }
{
    let planned = plan_run(alloc, code, budgets.control, input)?;
    let replayed = replay_lists(
        alloc,
        budgets.task,
        code,
        &planned.control,
        &planned.plan,
        lists,
    )?;
    Ok(CodeReplay { planned, replayed })
}
