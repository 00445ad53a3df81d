ghost use Rattle.std.specs.Prelude.{◌≡◌, ◌≤◌, List, ℕ, All, IfOk, length};
ghost use Rattle.collector.specs.Written.{IsByteIfThere};
ghost use Rattle.epoch_run_bodies.specs.Frames.{code_ends};
ghost use Rattle.flow_core_laws.specs.Limits.{budget_limit, input_limit, workers_limit};
ghost use Rattle.flow_core_laws.specs.IsSound.{IsSound};
ghost use Rattle.flow_core_laws.specs.StandsFor.{StandsFor};
ghost use Rattle.os_code.specs.Codes.{parts_of};
ghost use Rattle.os_code.specs.Tasks.{Fits};
ghost use Rattle.osrun_core_run.specs.RunOf.{AreTerms, IsRunOfCode};
ghost use Rattle.task_workers.specs.Logged.{HoldTheEnded};

use crate::body_laws::{codes_give_bytes, outputs_are_bytes};
use crate::made::MadeRun;
use crate::planning::plan_run;
use epoch_run_bodies::TaskBodies;
use epoch_run_bodies::laws::bodies_serve;
use flow_core_laws::{Control, Plan, laws};
use os_code::Code;
use os_io::{List, Memory};
use osrun_core_jobs::Terms;
use std::alloc::Global;
use std::thread::Threads;
use task_workers::{Gate, Logged, execute_logged};

/// A run that was made over one table, and who ran what.
#[derive(Debug, Drop)]
pub struct Traced {
    /// What the run comes to.
    pub run: MadeRun,
    /// The activations that each worker ran, in its order: a list for each worker, from worker 0 on.
    pub lists: List<List<u32>>,
}

/// Carries out the plan of a whole run over one table: each frame runs the task of its activation on one of the workers.
fn run_logged<R: Threads + Sync, G: Gate>(
    rt: &R,
    alloc: Global,
    terms: Terms,
    code: &Code,
    control: &Control,
    plan: &Plan,
    gate: &G,
) -> Result<Logged, Memory>
    requires workers { (1 ≤ terms.workers) × (terms.workers ≤ workers_limit) }
    requires budget { terms.task_budget ≤ budget_limit }
    requires fit { All (Fits (parts_of code.now)) control.now.activations }
    requires sound { IsSound plan.now }
    requires stands { (input : List ℕ) × StandsFor plan.now control.now.activations input }
    ensures meaning { (input : List ℕ) → StandsFor plan.now control.now.activations input → IfOk result (λ logged. logged.ends
        ≡ code_ends (parts_of code.now) control.now.activations input terms.task_budget) }
    ensures bytes { IfOk result (λ logged. All IsByteIfThere logged.ends.output) }
    ensures one_each { IfOk result (λ logged. length logged.lists ≡ terms.workers) }
    ensures lists { IfOk result (λ logged. HoldTheEnded logged.ends.ends logged.lists) }
{
    let bodies = TaskBodies {
        code,
        activations: control.activations.as_slice(),
        budget: terms.task_budget,
    };
    bodies_serve();
    codes_give_bytes();
    outputs_are_bytes();
    laws::plan_meaning();
    execute_logged(rt, alloc, plan, &bodies, terms.workers, gate)
}

/// Runs a code over an input whole, over one table: its `main` is run, the activations get their positions and a plan, workers
/// carry it out, and the output's bytes are collected. It tells which activations each worker ran.
pub fn trace_code<R: Threads + Sync, G: Gate>(
    rt: &R,
    alloc: Global,
    terms: Terms,
    code: &Code,
    input: &[u8],
    gate: &G,
) -> Result<Traced, Memory>
    requires within { AreTerms terms }
    requires few { length input.now ≤ input_limit }
    ensures run { IfOk result (λ traced. IsRunOfCode terms.task_budget terms.control_budget (parts_of code.now) input.now
        traced.run.output.items traced.run.layout traced.run.ends traced.run.control) }
    // A list for each worker, and in them each activation with an end once.
    ensures one_each { IfOk result (λ traced. length traced.lists ≡ terms.workers) }
    ensures lists { IfOk result (λ traced. HoldTheEnded traced.run.ends.ends traced.lists) }
{
    let planned = plan_run(alloc, code, terms.control_budget, input)?;
    let logged = run_logged(
        rt,
        alloc,
        terms,
        code,
        &planned.control,
        &planned.plan,
        gate,
    )?;
    let run = MadeRun::of(alloc, planned.layout, logged.ends, planned.control.end)?;
    Ok(Traced {
        run,
        lists: logged.lists,
    })
}
