ghost use Rattle.std.specs.Prelude.{◌≡◌, ◌+◌, ◌-◌, ◌<◌, ◌≤◌, Some, None, OnOk, IfOk, length, slice_get, slice_set, slice_range, map, replicate};
ghost use Rattle.flow_core_laws.specs.Plans.{frame_at};
ghost use Rattle.flow_core_laws.specs.IsSound.{IsSound};
ghost use Rattle.flow_core_laws.specs.Outcome.{State};
ghost use Rattle.flow_core.specs.Waits.{OpensMore};
ghost use Rattle.flow_core.specs.Counted.{IsCounted, HasOutputs, Carries, AreEmpty, IsUnfed, Delivers};
ghost use Rattle.flow_core.specs.Shows.{Shows, HasOutcome, end_at};

use crate::cells::fill;
use crate::waits::Waits;
use flow_core_laws::{Elem, Ends, Plan, TaskEnd};
use os_io::{List, Memory};
use std::alloc::Global;

/// Where a run of a plan stands: what a runtime reads its frames' inputs from, and delivers their ends
/// and outputs to. `open` takes all the memory of a run, and `take` needs none.
#[derive(Debug, Drop)]
pub struct Board {
    /// What each cell holds so far, a value or poison, or none.
    pub cells: Vec<Option<Elem>>,
    /// What each frame still misses, and the frames that may run.
    pub waits: Waits,
    /// The end of each frame so far, or none.
    pub ends: Vec<Option<TaskEnd>>,
}

impl Board {
    /// The board of a plan before anything ran.
    pub fn open(alloc: Global, plan: &Plan) -> Result<Board, Memory>
        requires { IsSound plan.now }
        ensures counted { IfOk result (λ b. IsCounted plan.now b.cells.items b.waits) }
        ensures filled { IfOk result (λ b. b.cells.items ≡ plan.now.filled) }
        ensures waiting { IfOk result (λ b. b.ends.items ≡ map (λ _. None) plan.now.frames) }
    {
        let cells = Vec::from_slice(alloc, plan.filled.as_slice())?;
        let ends = no_ends(alloc, plan.frames.len())?;
        let mut waits = Waits::new(alloc);
        waits.missing.reserve(plan.frames.len())?;
        waits.opened.reserve(plan.frames.len())?;
        for frame in plan.frames.as_slice() {
            waits.add(frame.wait)?;
        }
        Ok(Board { cells, waits, ends })
    }

    /// What the run came to: the ends, and the sink cells.
    pub fn close(&self, alloc: Global, plan: &Plan) -> Result<Ends, Memory>
        requires { plan.now.sink.cell + plan.now.sink.inputs ≤ length self.now.cells.items }
        ensures ends { IfOk result (λ e. e.ends ≡ self.now.ends.items) }
        ensures output { IfOk result (λ e. e.output
            ≡ slice_range self.now.cells.items plan.now.sink.cell (plan.now.sink.cell + plan.now.sink.inputs)) }
    {
        Ok(Ends {
            ends: List::from_slice(alloc, self.ends.as_slice())?,
            output: List::from_slice(alloc, self.sink_cells(plan))?,
        })
    }

    /// The cells of the sink.
    pub fn sink_cells(&self, plan: &Plan) -> &[Option<Elem>]
        requires { plan.now.sink.cell + plan.now.sink.inputs ≤ length self.now.cells.items }
        ensures cells { result.now
            ≡ slice_range self.now.cells.items plan.now.sink.cell (plan.now.sink.cell + plan.now.sink.inputs) }
        ensures length { length result.now ≡ plan.now.sink.inputs }
    {
        let first = plan.sink.cell as usize;
        &self.cells[first..first + plan.sink.inputs as usize]
    }

    /// Takes the end of a frame, with its outputs where it is `Done`. The cells that the frame feeds get these,
    /// and after another end poison with its root.
    pub fn take(
        &mut self,
        plan: &Plan,
        frame: u32,
        end: TaskEnd,
        outputs: &[i32],
    ) -> Result<(), Memory>
        requires sound { IsSound plan.now }
        requires exists { frame < length plan.now.frames }
        requires waits { end_at self.old.ends.items frame ≡ None }
        requires has_place { length self.old.ends.items ≡ length plan.now.frames }
        requires fits { end ≡ TaskEnd.Done → length outputs.now ≡ (frame_at plan.now frame).outputs }
        requires counted { IsCounted plan.now self.old.cells.items self.old.waits }
        requires empty { IsUnfed plan.now frame self.old.cells.items }
        ensures counted { OnOk result (IsCounted plan.now self.new.cells.items self.new.waits) }
        ensures ends { OnOk result (self.new.ends.items ≡ slice_set self.old.ends.items frame (Some end)) }
        ensures opens { OnOk result (OpensMore self.old.waits self.new.waits) }
        ensures shows { OnOk result ((meaning : State)
            → Shows plan.now meaning self.old.cells.items self.old.ends.items
            → HasOutcome meaning frame end outputs.now
            → Shows plan.now meaning self.new.cells.items self.new.ends.items) }
    {
        self.ends[frame as usize] = Some(end);
        let root = end.root(plan.number(frame));
        self.deliver(plan, frame, root, outputs)?;
        Ok(())
    }

    /// Carries poison with a root, or else the output elements of a frame, over by its pieces into their cells.
    fn deliver(
        &mut self,
        plan: &Plan,
        frame: u32,
        root: Option<u32>,
        outputs: &[i32],
    ) -> Result<(), Memory>
        requires sound { IsSound plan.now }
        requires exists { frame < length plan.now.frames }
        requires fits { HasOutputs (frame_at plan.now frame).outputs root outputs.now }
        requires counted { IsCounted plan.now self.old.cells.items self.old.waits }
        requires empty { IsUnfed plan.now frame self.old.cells.items }
        ensures counted { OnOk result (IsCounted plan.now self.new.cells.items self.new.waits) }
        ensures carried { OnOk result
            (Delivers plan.now frame root outputs.now self.old.cells.items self.new.cells.items) }
        ensures opens { OnOk result (OpensMore self.old.waits self.new.waits) }
        ensures ends { self.new.ends.items ≡ self.old.ends.items }
    {
        let place = plan.frame(frame);
        let first = place.piece as usize;
        for number in first..first + place.pieces as usize {
            self.deliver_piece(plan, number, root, outputs)?;
        }
        Ok(())
    }

    /// Carries the elements of one piece, and lowers the count of the frame that misses them.
    fn deliver_piece(
        &mut self,
        plan: &Plan,
        number: usize,
        root: Option<u32>,
        outputs: &[i32],
    ) -> Result<(), Memory>
        requires sound { IsSound plan.now }
        requires exists { number < length plan.now.pieces }
        requires fits { (p : _) → slice_get plan.now.pieces number ≡ Some p
            → HasOutputs (p.first + p.count) root outputs.now }
        requires counted { IsCounted plan.now self.old.cells.items self.old.waits }
        requires empty { AreEmpty plan.now number (number + 1) self.old.cells.items }
        ensures counted { OnOk result (IsCounted plan.now self.new.cells.items self.new.waits) }
        ensures carried { OnOk result
            (Carries plan.now number (number + 1) root outputs.now self.old.cells.items self.new.cells.items) }
        ensures opens { OnOk result (OpensMore self.old.waits self.new.waits) }
        ensures ends { self.new.ends.items ≡ self.old.ends.items }
    {
        let piece = plan.pieces.as_slice()[number];
        fill(&mut self.cells, piece, root, outputs);
        if (piece.to as usize) < plan.frames.len() {
            self.waits.lower(piece.to, piece.count)?;
        }
        Ok(())
    }
}

/// No end for each of `frames` frames.
fn no_ends(alloc: Global, frames: usize) -> Result<Vec<Option<TaskEnd>>, Memory>
    ensures { IfOk result (λ ends. ends.items ≡ replicate frames None) }
{
    let mut ends = Vec::new(alloc);
    ends.resize(frames, None)?;
    Ok(ends)
}
