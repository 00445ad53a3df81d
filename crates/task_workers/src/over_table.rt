ghost use Rattle.std.specs.Prelude.{◌≡◌, ◌≤◌, IfOk, length};
ghost use Rattle.flow_core_laws.specs.Limits.{workers_limit};
ghost use Rattle.flow_core_laws.specs.Outcome.{ends_of};
ghost use Rattle.flow_core_laws.specs.Plans.{plan_meaning, sink_elements};
ghost use Rattle.flow_core_laws.specs.IsSound.{IsSound};
ghost use Rattle.flow_core_laws.specs.Serves.{Serves};
ghost use Rattle.task_workers.specs.Logged.{HoldTheEnded};

use crate::logged::Logged;
use flow_core::{Bodies, Ends, Plan};
use frame_table::FrameTable;
use os_io::{Memory, Room};
use std::alloc::Global;
use std::thread::Threads;
use task_workers_crew::{gather_ends, gather_output, hire, run_logged};
use task_workers_round::Gate;

/// Runs a plan on `workers` workers, 1 to 64, over one table of atomic words. The frames that are Open at
/// opening are given to the workers' hands in turn; from then on each worker takes from its own hand and
/// from those of the others, and looks for frames where it is given none. Each worker but one has a
/// thread of its own; where one worker is asked for, no thread is started. All memory but that of threads
/// is taken before the table is open.
///
/// The gate is called with the number of the worker, from 0 on, and the frame before each frame runs.
pub fn execute<R: Threads + Sync, B: Bodies, G: Gate>(
    rt: &R,
    alloc: Global,
    plan: &Plan,
    bodies: &B,
    workers: u32,
    gate: &G,
) -> Result<Ends, Memory>
    requires workers { (1 ≤ workers) × (workers ≤ workers_limit) }
    requires sound { IsSound plan.now }
    requires served { Serves plan.now (B.outcome bodies.now) (B.takes bodies.now) }

    // None exactly where the meaning has no end, or no element.
    ensures ends { IfOk result (λ e. e.ends
        ≡ ends_of (plan_meaning plan.now (B.outcome bodies.now))) }
    ensures output { IfOk result (λ e. e.output
        ≡ sink_elements plan.now (plan_meaning plan.now (B.outcome bodies.now))) }
{
    let logged = execute_logged(rt, alloc, plan, bodies, workers, gate)?;
    Ok(logged.ends)
}

/// Runs a plan as `execute` does, and tells which frames each worker ran, in its order. The lists take their memory
/// before the table is open too. What worker 0 runs at the end, when the others have left, stands in its list.
pub fn execute_logged<R: Threads + Sync, B: Bodies, G: Gate>(
    rt: &R,
    alloc: Global,
    plan: &Plan,
    bodies: &B,
    workers: u32,
    gate: &G,
) -> Result<Logged, Memory>
    requires workers { (1 ≤ workers) × (workers ≤ workers_limit) }
    requires sound { IsSound plan.now }
    requires served { Serves plan.now (B.outcome bodies.now) (B.takes bodies.now) }

    // None exactly where the meaning has no end, or no element.
    ensures ends { IfOk result (λ l. l.ends.ends
        ≡ ends_of (plan_meaning plan.now (B.outcome bodies.now))) }
    ensures output { IfOk result (λ l. l.ends.output
        ≡ sink_elements plan.now (plan_meaning plan.now (B.outcome bodies.now))) }

    // A list for each worker, and in them each frame with an end once.
    ensures one_each { IfOk result (λ l. length l.lists ≡ workers) }
    ensures lists { IfOk result (λ l. HoldTheEnded l.ends.ends l.lists) }
{
    let ends = Room::new(alloc, plan.frames.len() as u32)?;
    let output = Room::new(alloc, plan.sink.inputs)?;
    let lists = Room::new(alloc, workers)?;
    let crew = hire(alloc, plan, bodies, workers)?;
    let (table, seats) = FrameTable::open(alloc, plan, bodies, workers)?;
    let (closed, lists) = run_logged(rt, table, seats, bodies, gate, crew, lists);
    let ends = Ends {
        ends: gather_ends(&closed, plan, bodies, workers, ends),
        output: gather_output(&closed, plan, bodies, workers, output),
    };
    Ok(Logged { ends, lists })
}
