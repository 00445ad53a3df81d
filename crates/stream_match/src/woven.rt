ghost use Rattle.std.specs.Prelude.{◌≡◌, ◌+◌, ◌++◌, ◌^◌, ◌<◌, ◌==◌, if◌then◌else◌, ℕ, All, List, IfOk, None};
ghost use Rattle.std.specs.Prelude.{length, map, replicate, slice_index, sum_by};
ghost use Rattle.std.specs.List.{flat_map};
ghost use Rattle.stream_match_layouts.specs.Layout.{IsLayout};
ghost use Rattle.stream_match.specs.declared.stretch.Stretch.{Stretch};
ghost use Rattle.stream_match.specs.Weave.{Reach, IsWoven};
ghost use Rattle.stream_match.specs.EpochPlan.{AscendInLayout, weave_over};
ghost use Rattle.stream_match.specs.Kept.{kept_of};
ghost use Rattle.stream_match.specs.EpochCode.{AreSorted, IsEmpty, empty_in, filled_cells, IsRead, IsLeft, CanLeave};

use crate::epoch_frames::epoch_frames;
use crate::filling::{Filled, fill, fill_empty};
use crate::gather::{append, gathered, place_by_frame};
use crate::kept::Kept;
use crate::reaching::{Left, Reaching};
use crate::stretch::Stretch;
use flow_core_laws::{FramePlan, Piece, Plan};
use os_io::{List, Memory};
use std::alloc::Global;
use stream_match_layouts::Layout;

/// The plan of frames, by what they read and what leaves them, and by the kept elements by their places.
pub(crate) fn weave_rows(
    alloc: Global,
    layout: &Layout,
    frames: &[u32],
    read: &Reaching,
    left: &Left,
    kept: &[Kept],
    input: &[u8],
) -> Result<Plan, Memory>
    requires layout { IsLayout layout.now }
    requires frames { AscendInLayout layout.now frames.now }
    requires read { IsRead layout.now frames.now read.now }
    requires left { (sink : List Reach) × CanLeave layout.now frames.now sink × IsLeft layout.now frames.now sink left.now }
    requires kept { AreSorted kept.now }
    requires nothing { All (IsEmpty input.now kept.now) left.now.stretches }
    ensures { IfOk result (λ plan. (sink : List Reach) → CanLeave layout.now frames.now sink → IsLeft layout.now frames.now sink left.now
        → IsWoven layout.now (weave_over layout.now input.now frames.now (map kept_of kept.now) sink) plan) }
{
    let reads = read.stretches.as_slice();
    let leaves = left.stretches.as_slice();
    let count = left.next - read.next;
    let filled = filled(alloc, frames.len(), kept, input, reads, count, left.next)?;
    let mut pieces = gathered(alloc, layout, frames, reads, left.pieces.len())?;
    append(alloc, &mut pieces, left.pieces.as_slice())?;
    let waits = filled.waits.as_slice();
    let plans = epoch_frames(alloc, layout, frames, pieces.as_slice(), waits)?;
    let carried = pieces.len() as u32;
    let placed = place_by_frame(alloc, pieces, plans.as_slice())?;
    let numbers = List::from_slice(alloc, frames)?;
    let sink = FramePlan {
        cell: read.next,
        inputs: left.next - read.next,
        outputs: 0,
        wait: waits[frames.len()],
        piece: carried,
        pieces: 0,
    };
    Ok(Plan {
        frames: plans,
        sink,
        pieces: placed,
        filled: filled.cells,
        numbers,
    })
}

/// The cells of what `frames` frames read and, with nothing in them, the `left` cells of what leaves: `count` together.
fn filled(
    alloc: Global,
    frames: usize,
    kept: &[Kept],
    input: &[u8],
    reads: &[Stretch],
    left: u32,
    count: u32,
) -> Result<Filled, Memory>
    requires kept { AreSorted kept.now }
    requires reads { All (λ (s : Stretch). s.first + s.count < 2 ^ 64) reads.now }
    requires frames { frames < 2 ^ 32 }
    requires into { All (λ (s : Stretch). s.to < frames + 1) reads.now }
    requires few { length (flat_map (filled_cells input.now kept.now) reads.now) + left < 2 ^ 32 }
    ensures cells { IfOk result (λ filled. filled.cells ≡ flat_map (filled_cells input.now kept.now) reads.now ++ replicate left None) }
    ensures frames { IfOk result (λ filled. length filled.waits.items ≡ frames + 1) }
    ensures waits { IfOk result (λ filled. (f : ℕ) → f < frames + 1
        → slice_index filled.waits.items f ≡ sum_by (empty_in input.now kept.now f) reads.now + (if f == frames then left else 0)) }
{
    let mut cells = List::with_capacity(alloc, count as usize)?;
    let mut waits = Vec::new(alloc);
    waits.resize(frames + 1, 0)?;
    fill(&mut cells, &mut waits, kept, input, reads)?;
    fill_empty(&mut cells, left)?;
    waits[frames] += left;
    Ok(Filled { cells, waits })
}
