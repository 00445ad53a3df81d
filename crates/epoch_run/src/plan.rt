ghost use Rattle.std.specs.Prelude.{◌≡◌, ◌≤◌, IfOk, max};
ghost use Rattle.flow_core_laws.specs.Limits.{workers_limit};
ghost use Rattle.flow_core_laws.specs.IsSound.{IsSound};
ghost use Rattle.flow_core_laws.specs.Outcome.{ends_of};
ghost use Rattle.flow_core_laws.specs.Plans.{plan_meaning, sink_elements};
ghost use Rattle.flow_core_laws.specs.Serves.{Serves};

use crate::pace::Pace;
use flow_core_laws::{Bodies, Ends, Plan};
use os_io::Memory;
use std::alloc::Global;
use std::thread::Threads;
use task_workers::{Gate, execute, execute_rounds};

/// How many workers a plan is worth: as many as were asked for, but no more than it has frames.
fn workers_for(asked: u32, frames: usize) -> u32
    requires { 1 ≤ asked }
    ensures some { 1 ≤ result }
    ensures within { result ≤ asked }
    ensures worth { result ≤ max 1 frames }
    ensures all { asked ≤ frames → result ≡ asked }
{
    if frames < asked as usize {
        return (frames as u32).max(1);
    }
    asked
}

/// Runs a plan by `workers` workers, or, where it has fewer frames, by as many as it has frames, at least one. One worker runs frame by frame in this
/// thread: it needs no table of atomic words and looks for no frames. So it does where bodies are short for what the table costs; several run them where
/// all are open from the start, in one round, and run longer ones over the table. So threads are started once, if any.
pub(crate) fn run_plan<R: Threads + Sync, B: Bodies, G: Gate>(
    rt: &R,
    alloc: Global,
    plan: &Plan,
    bodies: &B,
    workers: u32,
    gate: &G,
    pace: Pace,
) -> Result<Ends, Memory>
    requires workers { (1 ≤ workers) × (workers ≤ workers_limit) }
    requires sound { IsSound plan.now }
    requires served { Serves plan.now (B.outcome bodies.now) (B.takes bodies.now) }
    ensures ends { IfOk result (λ e. e.ends ≡ ends_of (plan_meaning plan.now (B.outcome bodies.now))) }
    ensures output { IfOk result (λ e. e.output ≡ sink_elements plan.now (plan_meaning plan.now (B.outcome bodies.now))) }
{
    let workers = workers_for(workers, plan.frames.len());
    if workers == 1 {
        return execute_rounds(rt, alloc, plan, bodies, 1, gate);
    }
    match pace.rounds_for(plan, workers) {
        Some(workers) => execute_rounds(rt, alloc, plan, bodies, workers, gate),
        None => execute(rt, alloc, plan, bodies, workers, gate),
    }
}
