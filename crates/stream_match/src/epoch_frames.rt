ghost use Rattle.std.specs.Prelude.{◌≡◌, ◌+◌, ◌^◌, ◌<◌, All, IfOk, length, map};
ghost use Rattle.std.specs.List.{range_with_len};
ghost use Rattle.flow_core_laws.specs.declared.plan.Piece.{Piece};
ghost use Rattle.stream_match_layouts.specs.Layout.{IsLayout};
ghost use Rattle.stream_match.specs.EpochPlan.{AscendInLayout};
ghost use Rattle.stream_match.specs.EpochCode.{epoch_frame};

use crate::frames::frame_tally;
use crate::gather::count_by_frame;
use flow_core_laws::{FramePlan, Piece};
use os_io::{List, Memory};
use std::alloc::Global;
use stream_match_layouts::Layout;

/// The frames of an epoch, by all its pieces and by how many cells of each, and of the sink behind them, hold nothing.
pub(crate) fn epoch_frames(
    alloc: Global,
    layout: &Layout,
    frames: &[u32],
    pieces: &[Piece],
    waits: &[u32],
) -> Result<List<FramePlan>, Memory>
    requires layout { IsLayout layout.now }
    requires frames { AscendInLayout layout.now frames.now }
    requires from { All (λ (p : Piece). p.from < length frames.now) pieces.now }
    requires few { length pieces.now < 2 ^ 32 }
    requires waits { length waits.now ≡ length frames.now + 1 }
    ensures { IfOk result (λ plans. plans ≡ map (epoch_frame layout.now frames.now pieces.now waits.now) (range_with_len 0 (length frames.now))) }
{
    let counted = count_by_frame(alloc, pieces, frames.len())?;
    let counts = counted.as_slice();
    let mut plans = List::new(alloc);
    plans.reserve(frames.len())?;
    let mut cell = 0;
    let mut piece = 0;
    for (number, frame) in frames.iter().enumerate() {
        let tally = frame_tally(layout, *frame as usize);
        let count = counts[number];
        plans.push(FramePlan {
            cell,
            inputs: tally.inputs,
            outputs: tally.outputs,
            wait: waits[number],
            piece,
            pieces: count,
        })?;
        cell += tally.inputs;
        piece += count;
    }
    Ok(plans)
}
