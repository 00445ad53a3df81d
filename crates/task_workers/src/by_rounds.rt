ghost use Rattle.std.specs.Prelude.{◌≡◌, ◌≤◌, ◌+◌, IfOk, length, slice_range};
ghost use Rattle.flow_core_laws.specs.Limits.{workers_limit};
ghost use Rattle.flow_core_laws.specs.Outcome.{ends_of};
ghost use Rattle.flow_core_laws.specs.Plans.{plan_meaning, sink_elements};
ghost use Rattle.flow_core_laws.specs.IsSound.{IsSound};
ghost use Rattle.flow_core_laws.specs.Serves.{Serves};

use crate::rounds::run_rounds;
use flow_core::{Board, Bodies, Ends, Plan};
use os_io::{List, Memory};
use std::alloc::Global;
use std::thread::Threads;
use task_workers_round::{Gate, Results, hire, most_outputs, run_alone};

/// Runs a plan round by round on `workers` workers, 1 to 64. The frames of a round that may run are given
/// to the workers by parts of their list, and what they came to is delivered before the next round.
/// A round of few frames gets few of the workers, and one of a single frame starts no thread; where no
/// thread can be made, the caller does the work. One worker runs frame by frame in the same order, with no rounds. All memory
/// but that of threads is taken before the first frame runs.
///
/// The gate is called with the number of the worker, from 0 on, and the frame before each frame runs.
pub fn execute_rounds<R: Threads + Sync, B: Bodies, G: Gate>(
    rt: &R,
    alloc: Global,
    plan: &Plan,
    bodies: &B,
    workers: u32,
    gate: &G,
) -> Result<Ends, Memory>
    requires workers { (1 ≤ workers) × (workers ≤ workers_limit) }
    requires sound { IsSound plan.now }
    requires served { Serves plan.now (B.outcome bodies.now) (B.takes bodies.now) }

    // None exactly where the meaning has no end, or no element.
    ensures ends { IfOk result (λ e. e.ends
        ≡ ends_of (plan_meaning plan.now (B.outcome bodies.now))) }
    ensures output { IfOk result (λ e. e.output
        ≡ sink_elements plan.now (plan_meaning plan.now (B.outcome bodies.now))) }
{
    let hands = plan.frames.len().clamp(1, workers as usize);
    if hands == 1 {
        return execute_alone(alloc, plan, bodies, gate);
    }
    let mut results = Results::new(alloc, plan)?;
    let mut hired = hire(alloc, plan, bodies, hands)?;
    let mut board = Board::open(alloc, plan)?;
    let opening = board.close(alloc, plan)?;
    run_rounds(
        rt,
        plan,
        bodies,
        gate,
        &mut board,
        results.ends.as_mut_slice(),
        results.outputs.as_mut_slice(),
        hired.as_mut_slice(),
    )?;
    let ends = collect(plan, &board, opening);
    Ok(ends)
}

/// Runs a plan by one worker in this thread.
fn execute_alone<B: Bodies, G: Gate>(
    alloc: Global,
    plan: &Plan,
    bodies: &B,
    gate: &G,
) -> Result<Ends, Memory>
    requires sound { IsSound plan.now }
    requires served { Serves plan.now (B.outcome bodies.now) (B.takes bodies.now) }
    ensures ends { IfOk result (λ e. e.ends
        ≡ ends_of (plan_meaning plan.now (B.outcome bodies.now))) }
    ensures output { IfOk result (λ e. e.output
        ≡ sink_elements plan.now (plan_meaning plan.now (B.outcome bodies.now))) }
{
    let mut outputs = Vec::new(alloc);
    outputs.resize(most_outputs(plan), 0)?;
    let mut hired = hire(alloc, plan, bodies, 1)?;
    let mut board = Board::open(alloc, plan)?;
    let opening = board.close(alloc, plan)?;
    run_alone(
        plan,
        bodies,
        gate,
        &mut board,
        outputs.as_mut_slice(),
        &mut hired[0],
    )?;
    let ends = collect(plan, &board, opening);
    Ok(ends)
}

/// Puts what a run came to over what it had come to at opening: the ends, and the sink cells.
fn collect(plan: &Plan, board: &Board, mut into: Ends) -> Ends
    requires exists { plan.now.sink.cell + plan.now.sink.inputs ≤ length board.now.cells.items }
    requires ends { length into.ends ≡ length board.now.ends.items }
    requires output { length into.output ≡ plan.now.sink.inputs }
    ensures ends { result.ends ≡ board.now.ends.items }
    ensures output { result.output
        ≡ slice_range board.now.cells.items plan.now.sink.cell (plan.now.sink.cell + plan.now.sink.inputs) }
{
    put(&mut into.ends, board.ends.as_slice());
    put(&mut into.output, board.sink_cells(plan));
    into
}

/// Replaces the items of a list by others, as many as it has.
fn put<T: Copy>(list: &mut List<T>, items: &[T])
    requires { length list.old ≡ length items.now }
    ensures { list.new ≡ items.now }
{
    list.as_mut_slice().copy_from_slice(items);
}
