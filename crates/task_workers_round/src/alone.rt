ghost use Rattle.std.specs.Prelude.{◌≡◌, ◌<◌, ◌≤◌, All, Some, None, OnOk, length, slice_index, slice_set};
ghost use Rattle.flow_core_laws.specs.declared.task_end.TaskEnd.{TaskEnd};
ghost use Rattle.flow_core_laws.specs.Plans.{plan_meaning};
ghost use Rattle.flow_core_laws.specs.IsSound.{IsSound};
ghost use Rattle.flow_core_laws.specs.Serves.{Serves};
ghost use Rattle.flow_core.specs.Board.{IsRun};
ghost use Rattle.flow_core.specs.Counted.{IsCounted};
ghost use Rattle.flow_core.specs.Shows.{Shows, end_at};
ghost use Rattle.flow_core.specs.Waits.{OpensMore};
ghost use Rattle.task_workers_round.specs.Results.{MayRun, outputs_of};

use crate::gate::Gate;
use crate::worker::{Worker, run_frame};
use flow_core::{Board, Bodies, Plan};
use os_io::Memory;

/// Runs the frames of a plan by one worker in this thread: those that miss nothing, and then, in the order in which they open,
/// those that others open. What a frame came to is delivered before the next one runs. There is room for the outputs of
/// any frame. The gate is called with the number of the worker and the frame before each frame runs.
pub fn run_alone<B: Bodies, G: Gate>(
    plan: &Plan,
    bodies: &B,
    gate: &G,
    board: &mut Board,
    outputs: &mut [i32],
    worker: &mut Worker<B::Scratch>,
) -> Result<(), Memory>
    requires sound { IsSound plan.now }
    requires served { Serves plan.now (B.outcome bodies.now) (B.takes bodies.now) }
    requires begins { IsRun plan.now (plan_meaning plan.now (B.outcome bodies.now)) board.old 0 }
    requires room { All (λ p. p.outputs ≤ length outputs.old) plan.now.frames }
    requires fitting { B.fits bodies.now worker.old.scratch }
    ensures { OnOk result (IsRun plan.now (plan_meaning plan.now (B.outcome bodies.now))
        board.new (length board.new.waits.opened.items)) }
{
    let mut turn = 0;
    while turn < board.waits.opened.len() {
        let frame = board.waits.opened[turn];
        run_next(plan, bodies, gate, board, frame, outputs, worker)?;
        turn += 1;
    }
    Ok(())
}

/// Runs a frame, and delivers what it came to.
fn run_next<B: Bodies, G: Gate>(
    plan: &Plan,
    bodies: &B,
    gate: &G,
    board: &mut Board,
    frame: u32,
    outputs: &mut [i32],
    worker: &mut Worker<B::Scratch>,
) -> Result<(), Memory>
    requires sound { IsSound plan.now }
    requires served { Serves plan.now (B.outcome bodies.now) (B.takes bodies.now) }
    requires counted { IsCounted plan.now board.old.cells.items board.old.waits }
    requires shows { Shows plan.now (plan_meaning plan.now (B.outcome bodies.now))
        board.old.cells.items board.old.ends.items }
    requires may_run { MayRun plan.now board.old.waits frame }
    requires waits { end_at board.old.ends.items frame ≡ None }
    requires room { outputs_of plan.now frame ≤ length outputs.old }
    requires fitting { B.fits bodies.now worker.old.scratch }
    ensures counted { OnOk result (IsCounted plan.now board.new.cells.items board.new.waits) }
    ensures shows { OnOk result (Shows plan.now (plan_meaning plan.now (B.outcome bodies.now))
        board.new.cells.items board.new.ends.items) }
    ensures opens { OnOk result (OpensMore board.old.waits board.new.waits) }
    ensures ended { OnOk result ((end : TaskEnd)
        × (board.new.ends.items ≡ slice_set board.old.ends.items frame (Some end))) }
    ensures fitting { B.fits bodies.now worker.new.scratch }
{
    let count = plan.frame(frame).outputs as usize;
    let (outputs, _) = outputs.split_at_mut(count);
    let end = run_frame(plan, bodies, board, gate, frame, outputs, worker)?;
    board.take(plan, frame, end, outputs)?;
    Ok(())
}
