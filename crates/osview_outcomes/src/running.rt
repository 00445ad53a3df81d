ghost use Rattle.std.specs.Prelude.{◌≡◌, ◌<◌, None, OnOk, IfOk, length, map, slice_set};
ghost use Rattle.flow_core_laws.specs.Plans.{plan_meaning};
ghost use Rattle.flow_core_laws.specs.IsSound.{IsSound};
ghost use Rattle.flow_core_laws.specs.Serves.{Serves};
ghost use Rattle.flow_core.specs.Board.{IsRun};
ghost use Rattle.osview_outcomes.specs.Kept.{AreKept, StandBehind};
ghost use Rattle.osview_outcomes.specs.Outcomes.{AreOutcomesOf, HasInputs, HasOrder};

use crate::kept::Outcomes;
use flow_core::{Board, Bodies, FrameBuffers, Plan, run_frame};
use os_io::{List, Memory};
use std::alloc::Global;

/// Keeps the values of a frame.
fn keep(
    alloc: Global,
    lists: &mut List<List<i32>>,
    frame: u32,
    values: &[i32],
) -> Result<(), Memory>
    requires { frame < length lists.old }
    ensures { OnOk result (lists.new ≡ slice_set lists.old frame values.now) }
{
    let kept = List::from_slice(alloc, values)?;
    lists.as_mut_slice()[frame as usize] = kept;
    Ok(())
}

/// Runs the opened frames in turn, those that open on the way too, until each of them was run.
fn run_all<B: Bodies>(
    alloc: Global,
    board: &mut Board,
    inputs: &mut List<List<i32>>,
    outputs: &mut List<List<i32>>,
    plan: &Plan,
    bodies: &B,
) -> Result<(), Memory>
    requires sound { IsSound plan.now }
    requires served { Serves plan.now (B.outcome bodies.now) (B.takes bodies.now) }
    requires begins { IsRun plan.now (plan_meaning plan.now (B.outcome bodies.now)) board.old 0 }
    requires inputs { length inputs.old ≡ length plan.now.frames }
    requires outputs { length outputs.old ≡ length plan.now.frames }
    requires none { board.old.ends.items ≡ map (λ _. None) plan.now.frames }
    ensures run { OnOk result (IsRun plan.now (plan_meaning plan.now (B.outcome bodies.now))
        board.new (length board.new.waits.opened.items)) }
    ensures kept { OnOk result (AreKept plan.now (plan_meaning plan.now (B.outcome bodies.now)) board.new.ends.items inputs.new outputs.new) }
    ensures behind { OnOk result (StandBehind plan.now board.new.waits.opened.items (length board.new.waits.opened.items)) }
{
    let mut scratch = bodies.scratch(alloc)?;
    let mut buffers = FrameBuffers::new(alloc);
    let mut turn = 0;
    while turn < board.waits.opened.len() {
        let frame = board.waits.opened[turn];
        run_frame(board, plan, bodies, frame, &mut buffers, &mut scratch)?;
        keep(alloc, inputs, frame, buffers.inputs.as_slice())?;
        keep(alloc, outputs, frame, buffers.outputs.as_slice())?;
        turn += 1;
    }
    Ok(())
}

/// A list of `count` empty lists.
fn empty_lists(alloc: Global, count: usize) -> Result<List<List<i32>>, Memory>
    ensures { IfOk result (λ lists. length lists ≡ count) }
{
    let mut lists = List::with_capacity(alloc, count)?;
    for _ in 0..count {
        lists.push(List::new(alloc))?;
    }
    Ok(lists)
}

/// Runs a plan on one thread, and keeps of each frame how it ended, what it read and what it wrote, and the order in which they
/// were run.
pub fn outcomes<B: Bodies>(alloc: Global, plan: &Plan, bodies: &B) -> Result<Outcomes, Memory>
    requires sound { IsSound plan.now }
    requires served { Serves plan.now (B.outcome bodies.now) (B.takes bodies.now) }
    ensures outcomes { IfOk result (λ outcomes. AreOutcomesOf outcomes (plan_meaning plan.now (B.outcome bodies.now))) }
    ensures inputs { IfOk result (λ outcomes. HasInputs outcomes plan.now (plan_meaning plan.now (B.outcome bodies.now))) }
    ensures order { IfOk result (λ outcomes. HasOrder outcomes plan.now (plan_meaning plan.now (B.outcome bodies.now))) }
{
    let mut inputs = empty_lists(alloc, plan.frames.len())?;
    let mut outputs = empty_lists(alloc, plan.frames.len())?;
    let mut board = Board::open(alloc, plan)?;
    run_all(alloc, &mut board, &mut inputs, &mut outputs, plan, bodies)?;
    let Board { ends, waits, .. } = board;
    Ok(Outcomes {
        ends,
        inputs,
        outputs,
        order: waits.opened,
    })
}
