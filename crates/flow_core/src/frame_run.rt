ghost use Rattle.std.specs.Prelude.{◌≡◌, ◌<◌, List, Some, None, IsSome, OnOk, IfOk, length, slice_index, slice_set};
ghost use Rattle.flow_core_laws.specs.Round.{gathered};
ghost use Rattle.flow_core_laws.specs.declared.elem.Elem.{Elem};
ghost use Rattle.flow_core_laws.specs.declared.task_end.TaskEnd.{TaskEnd};
ghost use Rattle.flow_core_laws.specs.Poisoning.{poisoning, values_of};
ghost use Rattle.flow_core_laws.specs.Plans.{plan_meaning};
ghost use Rattle.flow_core_laws.specs.IsSound.{IsSound};
ghost use Rattle.flow_core_laws.specs.Serves.{Serves};
ghost use Rattle.flow_core.specs.Waits.{OpensMore};
ghost use Rattle.flow_core.specs.Counted.{IsCounted};
ghost use Rattle.flow_core.specs.Shows.{HasOutcome, Reads, Shows, end_at};

use crate::board::Board;
use crate::cells::gather;
use flow_core_laws::{Bodies, Elem, FramePlan, Plan, TaskEnd};
use os_io::Memory;
use std::alloc::Global;

/// What the frame that runs reads and writes. One is enough for all frames of a run on one thread: each frame puts its own values in
/// place of those of the frame before, and a buffer grows to the most that a frame wants.
#[derive(Debug, Drop)]
pub struct FrameBuffers {
    /// The values of the frame's cells, in their order, without those that are poison.
    pub inputs: Vec<i32>,
    /// The output elements of a frame that is `Done`.
    pub outputs: Vec<i32>,
}

impl FrameBuffers {
    /// Empty buffers. They take no memory.
    pub fn new(alloc: Global) -> FrameBuffers {
        FrameBuffers {
            inputs: Vec::new(alloc),
            outputs: Vec::new(alloc),
        }
    }
}

/// The end of a frame by its cells, which all hold an element: poisoned where one of them is poison, and else that
/// of its body, which runs on their values.
fn frame_end<B: Bodies>(
    bodies: &B,
    frame: u32,
    place: FramePlan,
    cells: &[Option<Elem>],
    buffers: &mut FrameBuffers,
    scratch: &mut B::Scratch,
) -> Result<TaskEnd, Memory>
    requires taken { B.takes bodies.now frame (length cells.now) place.outputs }
    requires fitting { B.fits bodies.now scratch.old }
    requires there { IsSome (gathered cells.now) }
    ensures end { (elements : List Elem) → gathered cells.now ≡ Some elements
        → IfOk result (λ end. end ≡ (poisoning (B.outcome bodies.now) frame elements).end) }
    ensures outputs { (elements : List Elem) → gathered cells.now ≡ Some elements
        → IfOk result (λ end. end ≡ TaskEnd.Done
        → buffers.new.outputs.items ≡ (poisoning (B.outcome bodies.now) frame elements).outputs) }
    ensures inputs { (elements : List Elem) → gathered cells.now ≡ Some elements
        → OnOk result (buffers.new.inputs.items ≡ values_of elements) }
    ensures fits_again { OnOk result (B.fits bodies.now scratch.new) }
{
    let root = gather(cells, &mut buffers.inputs)?;
    if let Some(root) = root {
        return Ok(TaskEnd::Poisoned { root });
    }
    buffers.outputs.resize(place.outputs as usize, 0)?;
    Ok(bodies.run(
        frame,
        buffers.inputs.as_slice(),
        buffers.outputs.as_mut_slice(),
        scratch,
    ))
}

/// Runs a frame that misses nothing, on the cells that it reads: its body, or none where one of the cells is poison. The
/// board takes its end, and what it wrote where it is `Done`; the buffers then have the values that it read and these outputs, and
/// outputs that mean nothing where it isn't. An error leaves a board that is of no more use.
pub fn run_frame<B: Bodies>(
    board: &mut Board,
    plan: &Plan,
    bodies: &B,
    frame: u32,
    buffers: &mut FrameBuffers,
    scratch: &mut B::Scratch,
) -> Result<(), Memory>
    requires sound { IsSound plan.now }
    requires served { Serves plan.now (B.outcome bodies.now) (B.takes bodies.now) }
    requires exists { frame < length plan.now.frames }
    requires counted { IsCounted plan.now board.old.cells.items board.old.waits }
    requires shows { Shows plan.now (plan_meaning plan.now (B.outcome bodies.now))
        board.old.cells.items board.old.ends.items }
    requires full { slice_index board.old.waits.missing.items frame ≡ 0 }
    requires waits { end_at board.old.ends.items frame ≡ None }
    requires fitting { B.fits bodies.now scratch.old }
    ensures counted { OnOk result (IsCounted plan.now board.new.cells.items board.new.waits) }
    ensures shows { OnOk result (Shows plan.now (plan_meaning plan.now (B.outcome bodies.now))
        board.new.cells.items board.new.ends.items) }
    ensures opens { OnOk result (OpensMore board.old.waits board.new.waits) }
    ensures reads { OnOk result (Reads plan.now (plan_meaning plan.now (B.outcome bodies.now)) frame buffers.new.inputs.items) }
    ensures ended { OnOk result ((end : TaskEnd)
        × (board.new.ends.items ≡ slice_set board.old.ends.items frame (Some end))
        × HasOutcome (plan_meaning plan.now (B.outcome bodies.now)) frame end buffers.new.outputs.items) }
    ensures fits_again { OnOk result (B.fits bodies.now scratch.new) }
{
    let place = plan.frame(frame);
    let first = place.cell as usize;
    let cells = &board.cells[first..first + place.inputs as usize];
    let end = frame_end(bodies, frame, place, cells, buffers, scratch)?;
    board.take(plan, frame, end, buffers.outputs.as_slice())?;
    Ok(())
}
