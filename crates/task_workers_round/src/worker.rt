ghost use Rattle.std.specs.Prelude.{◌≡◌, ◌<◌, ◌≤◌, ◌+◌, List, Some, IsSome, IfOk, OnOk, All, length, slice_index};
ghost use Rattle.flow_core_laws.specs.Limits.{workers_limit};
ghost use Rattle.flow_core_laws.specs.declared.elem.Elem.{Elem};
ghost use Rattle.flow_core_laws.specs.Round.{gathered};
ghost use Rattle.flow_core_laws.specs.Poisoning.{poisoning};
ghost use Rattle.flow_core_laws.specs.Plans.{plan_meaning};
ghost use Rattle.flow_core_laws.specs.IsSound.{IsSound};
ghost use Rattle.flow_core_laws.specs.Serves.{Serves};
ghost use Rattle.flow_core.specs.Counted.{IsCounted};
ghost use Rattle.flow_core.specs.Shows.{Shows, HasOutcome};
ghost use Rattle.task_workers_round.specs.Results.{AreResults, MayRun, outputs_of, room_of};

use crate::gate::Gate;
use flow_core::{Board, Bodies, Elem, Plan, TaskEnd, gather};
use os_io::Memory;
use std::alloc::Global;

/// A worker: its number, its scratch, and the inputs of the frame that it runs.
#[derive(Drop)]
pub struct Worker<S> {
    pub(crate) number: u32,
    /// What the bodies work on.
    pub scratch: S,
    pub(crate) inputs: Vec<i32>,
}

/// The end of a frame by its cells, which all hold an element: poisoned where one of them is poison, and else that
/// of its body, which runs on their values.
fn frame_end<B: Bodies>(
    bodies: &B,
    frame: u32,
    cells: &[Option<Elem>],
    outputs: &mut [i32],
    worker: &mut Worker<B::Scratch>,
) -> Result<TaskEnd, Memory>
    requires taken { B.takes bodies.now frame (length cells.now) (length outputs.old) }
    requires fitting { B.fits bodies.now worker.old.scratch }
    requires there { IsSome (gathered cells.now) }
    ensures end { (elements : List Elem) → gathered cells.now ≡ Some elements
        → IfOk result (λ end. end ≡ (poisoning (B.outcome bodies.now) frame elements).end) }
    ensures outputs { (elements : List Elem) → gathered cells.now ≡ Some elements
        → IfOk result (λ end. end ≡ TaskEnd.Done
        → outputs.new ≡ (poisoning (B.outcome bodies.now) frame elements).outputs) }
    ensures fitting { B.fits bodies.now worker.new.scratch }
{
    let root = gather(cells, &mut worker.inputs)?;
    if let Some(root) = root {
        return Ok(TaskEnd::Poisoned { root });
    }
    Ok(bodies.run(
        frame,
        worker.inputs.as_slice(),
        outputs,
        &mut worker.scratch,
    ))
}

/// Takes the end of a frame whose cells all hold an element.
pub(crate) fn run_frame<B: Bodies, G: Gate>(
    plan: &Plan,
    bodies: &B,
    board: &Board,
    gate: &G,
    frame: u32,
    outputs: &mut [i32],
    worker: &mut Worker<B::Scratch>,
) -> Result<TaskEnd, Memory>
    requires sound { IsSound plan.now }
    requires served { Serves plan.now (B.outcome bodies.now) (B.takes bodies.now) }
    requires counted { IsCounted plan.now board.now.cells.items board.now.waits }
    requires shows { Shows plan.now (plan_meaning plan.now (B.outcome bodies.now))
        board.now.cells.items board.now.ends.items }
    requires may_run { MayRun plan.now board.now.waits frame }
    requires room { length outputs.old ≡ outputs_of plan.now frame }
    requires fitting { B.fits bodies.now worker.old.scratch }
    ensures gives { IfOk result (λ end.
        HasOutcome (plan_meaning plan.now (B.outcome bodies.now)) frame end outputs.new) }
    ensures fitting { B.fits bodies.now worker.new.scratch }
{
    gate.at(worker.number, frame);
    let place = plan.frame(frame);
    let first = place.cell as usize;
    let cells = &board.cells[first..first + place.inputs as usize];
    let end = frame_end(bodies, frame, cells, outputs, worker)?;
    Ok(end)
}

/// Runs frames in turn, and puts their ends and their outputs one behind the other.
pub(crate) fn run_frames<B: Bodies, G: Gate>(
    plan: &Plan,
    bodies: &B,
    board: &Board,
    gate: &G,
    frames: &[u32],
    ends: &mut [TaskEnd],
    outputs: &mut [i32],
    worker: &mut Worker<B::Scratch>,
) -> Result<(), Memory>
    requires sound { IsSound plan.now }
    requires served { Serves plan.now (B.outcome bodies.now) (B.takes bodies.now) }
    requires counted { IsCounted plan.now board.now.cells.items board.now.waits }
    requires shows { Shows plan.now (plan_meaning plan.now (B.outcome bodies.now))
        board.now.cells.items board.now.ends.items }
    requires may_run { All (MayRun plan.now board.now.waits) frames.now }
    requires end_each { length ends.old ≡ length frames.now }
    requires room { length outputs.old ≡ room_of plan.now frames.now }
    requires fitting { B.fits bodies.now worker.old.scratch }
    ensures results { OnOk result (AreResults plan.now (plan_meaning plan.now (B.outcome bodies.now))
        frames.now ends.new outputs.new) }
    ensures fitting { B.fits bodies.now worker.new.scratch }
{
    let mut first = 0;
    for (k, frame) in frames.iter().enumerate() {
        let next = first + plan.frame(*frame).outputs as usize;
        let stretch = &mut outputs[first..next];
        ends[k] = run_frame(plan, bodies, board, gate, *frame, stretch, worker)?;
        first = next;
    }
    Ok(())
}

/// As many workers as `count` says, up to 64, numbered from 0 on, each with a scratch and with room for the inputs of any
/// frame of a plan.
pub fn hire<B: Bodies>(
    alloc: Global,
    plan: &Plan,
    bodies: &B,
    count: usize,
) -> Result<Vec<Worker<B::Scratch>>, Memory>
    requires few { count ≤ workers_limit }
    ensures count { IfOk result (λ ws. length ws.items ≡ count) }
    ensures fitting { IfOk result (λ ws. All (λ w. B.fits bodies.now w.scratch) ws.items) }
{
    let most = most_inputs(plan);
    let mut workers = Vec::new(alloc);
    workers.reserve(count)?;
    for number in 0..count {
        let mut inputs = Vec::new(alloc);
        inputs.reserve(most)?;
        workers.push(Worker {
            number: number as u32,
            scratch: bodies.scratch(alloc)?,
            inputs,
        })?;
    }
    Ok(workers)
}

/// The greatest number of inputs of a frame.
fn most_inputs(plan: &Plan) -> usize {
    let mut most = 0;
    for frame in plan.frames.as_slice() {
        most = most.max(frame.inputs as usize);
    }
    most
}
