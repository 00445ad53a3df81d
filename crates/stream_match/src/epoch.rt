ghost use Rattle.std.specs.Prelude.{◌≡◌, ℕ, [], ◌+◌, ◌^◌, ◌<◌, All, List, IfOk, length, map};
ghost use Rattle.std.specs.List.{flat_map, range_with_len};
ghost use Rattle.flow_core_laws.specs.declared.activation.Activation.{Activation};
ghost use Rattle.flow_core_laws.specs.IsSound.{IsSound};
ghost use Rattle.flow_core_epochs.specs.Epoch as epoch;
ghost use Rattle.flow_core_epochs.specs.Epoch.{IsOutside, StandsForEpoch, read_from};
ghost use Rattle.stream_match_layouts.specs.declared.layout.Layout.{Layout};
ghost use Rattle.stream_match.specs.declared.stretch.Stretch.{Stretch};
ghost use Rattle.stream_match_layouts.specs.Layout.{IsLayout, IsLayoutOf};
ghost use Rattle.stream_match_layouts.specs.Spans.{frame_count};
ghost use Rattle.stream_match.specs.EpochPlan.{AscendInLayout, WrittenOutside, GoesOn, GoesOnFor, IsEpochPlanOf};
ghost use Rattle.stream_match.specs.Kept.{kept_of, IsKeptOutside};
ghost use Rattle.stream_match.specs.EpochCode.{AreSorted};
ghost use Rattle.stream_match.specs.Stretch.{stretch_places};

use crate::cursors::read_cursors;
use crate::kept::Kept;
use crate::look_up::sorted;
use crate::places::places_in;
use crate::reaching::{Left, leaving, reading};
use crate::stretch::Stretch;
use crate::woven::weave_rows;
use flow_core_laws::{FramePlan, Place, Plan};
use os_io::{List, Memory};
use std::alloc::Global;
use stream_match_layouts::Layout;

/// The plan of an epoch, its frames, and what leaves it, place by place: the stream and the position of each cell of the sink, in the
/// order of the cells. Whoever asks which element a cell of the sink is finds it here.
#[derive(Drop)]
pub struct EpochPlan {
    pub plan: Plan,
    pub frames: List<u32>,
    pub places: List<Place>,
}

/// The plan of an epoch that leaves some activations out, its frames, and what leaves it, stretch by stretch: the cells of the sink are
/// those of the first stretch, then those of the second, and so on. A run in epochs goes by these, since it takes the elements of a
/// stretch at once: no place is written down for each of them.
#[derive(Drop)]
pub struct ReadyPlan {
    pub plan: Plan,
    pub frames: List<u32>,
    pub leaves: List<Stretch>,
}

/// The plan of an epoch over an input. Its frames are these activations, in order. The cells are those
/// of their input windows, frame by frame, and behind them those of the sink: what the frames write to
/// the output, or where it may still be read. What is kept is there from the start. It tells the place of each cell of the sink.
pub fn build_epoch(
    alloc: Global,
    layout: &Layout,
    frames: &[u32],
    kept: &[Kept],
    input: &[u8],
) -> Result<EpochPlan, Memory>
    requires layout { IsLayout layout.now }
    requires input { length input.now ≡ layout.now.input_len }
    requires frames { AscendInLayout layout.now frames.now }
    requires kept { IsKeptOutside layout.now frames.now (map kept_of kept.now) }
    ensures frames { IfOk result (λ epoch. epoch.frames ≡ frames.now) }
    ensures sound { IfOk result (λ epoch. IsSound epoch.plan) }
    ensures stands_for { IfOk result (λ epoch. (activations : List Activation) → IsLayoutOf layout.now activations
        → IsOutside activations frames.now (map kept_of kept.now)
        → StandsForEpoch epoch.plan activations input.now frames.now frames.now (map kept_of kept.now) epoch.places) }
    ensures adds_up { IfOk result (λ epoch. GoesOn layout.now input.now frames.now (map kept_of kept.now) epoch.plan) }
{
    let ready = build_ready(alloc, layout, frames, frames, kept, input)?;
    let places = places_in(alloc, ready.leaves.as_slice(), ready.plan.sink.inputs)?;
    let ReadyPlan { plan, frames, .. } = ready;
    Ok(EpochPlan {
        plan,
        frames,
        places,
    })
}

/// The plan of an epoch that leaves some activations out, as `build_epoch` gives it: the frames are some of the readers, and
/// an element that a frame writes leaves where readers or later activations may still read it. What leaves it tells by stretches.
pub fn build_ready(
    alloc: Global,
    layout: &Layout,
    readers: &[u32],
    frames: &[u32],
    kept: &[Kept],
    input: &[u8],
) -> Result<ReadyPlan, Memory>
    requires layout { IsLayout layout.now }
    requires input { length input.now ≡ layout.now.input_len }
    requires readers { All (λ f. f < frame_count layout.now) readers.now }
    requires frames { AscendInLayout layout.now frames.now }
    requires kept { IsKeptOutside layout.now frames.now (map kept_of kept.now) }
    ensures frames { IfOk result (λ epoch. epoch.frames ≡ frames.now) }
    ensures sound { IfOk result (λ epoch. IsSound epoch.plan) }
    ensures stands_for { IfOk result (λ epoch. (activations : List Activation) → IsLayoutOf layout.now activations
        → IsOutside activations frames.now (map kept_of kept.now)
        → StandsForEpoch epoch.plan activations input.now readers.now frames.now (map kept_of kept.now) (flat_map stretch_places epoch.leaves)) }
    ensures small { IfOk result (λ epoch. All (λ (s : Stretch). s.first + s.count < 2 ^ 64) epoch.leaves) }
    ensures adds_up { IfOk result (λ epoch. GoesOnFor layout.now input.now readers.now frames.now (map kept_of kept.now) epoch.plan) }
{
    let kept = sorted(alloc, kept)?;
    let epoch = plan_of(alloc, layout, readers, frames, kept.as_slice(), input)?;
    Ok(epoch)
}

/// The plan of an epoch; `kept` is sorted by place. Without frames the plan is empty.
fn plan_of(
    alloc: Global,
    layout: &Layout,
    readers: &[u32],
    frames: &[u32],
    kept: &[Kept],
    input: &[u8],
) -> Result<ReadyPlan, Memory>
    requires layout { IsLayout layout.now }
    requires readers { All (λ f. f < frame_count layout.now) readers.now }
    requires frames { AscendInLayout layout.now frames.now }
    requires kept { AreSorted kept.now }
    requires outside { (activations : List Activation) × IsLayoutOf layout.now activations
        × WrittenOutside activations frames.now (map kept_of kept.now) }
    ensures frames { IfOk result (λ epoch. epoch.frames ≡ frames.now) }
    ensures small { IfOk result (λ epoch. All (λ (s : Stretch). s.first + s.count < 2 ^ 64) epoch.leaves) }
    ensures plan { IfOk result (λ epoch. (activations : List Activation) → IsLayoutOf layout.now activations
        → IsEpochPlanOf layout.now input.now frames.now (map kept_of kept.now)
        (map (read_from activations readers.now) (range_with_len 0 (length layout.now.writers))) epoch.plan (flat_map stretch_places epoch.leaves)) }
{
    if frames.is_empty() {
        return Ok(nothing(alloc));
    }
    let cursors = read_cursors(alloc, layout, readers)?;
    let epoch = weave(alloc, layout, frames, cursors.as_slice(), kept, input)?;
    Ok(epoch)
}

/// The plan of an epoch with no frames.
fn nothing(alloc: Global) -> ReadyPlan
    ensures frames { result.frames ≡ [] }
    ensures small { All (λ (s : Stretch). s.first + s.count < 2 ^ 64) result.leaves }
    ensures plan { (layout : Layout) (input : List ℕ) (kept : List epoch.Kept) (cursors : List ℕ)
        → IsEpochPlanOf layout input [] kept cursors result.plan (flat_map stretch_places result.leaves) }
{
    let sink = FramePlan {
        cell: 0,
        inputs: 0,
        outputs: 0,
        wait: 0,
        piece: 0,
        pieces: 0,
    };
    let plan = Plan {
        frames: List::new(alloc),
        sink,
        pieces: List::new(alloc),
        filled: List::new(alloc),
        numbers: List::new(alloc),
    };
    ReadyPlan {
        plan,
        frames: List::new(alloc),
        leaves: List::new(alloc),
    }
}

/// The plan of an epoch, by the cursors of its streams and the kept elements by their places.
fn weave(
    alloc: Global,
    layout: &Layout,
    frames: &[u32],
    cursors: &[u64],
    kept: &[Kept],
    input: &[u8],
) -> Result<ReadyPlan, Memory>
    requires layout { IsLayout layout.now }
    requires frames { AscendInLayout layout.now frames.now }
    requires cursors { length cursors.now ≡ length layout.now.writers }
    requires small { All (λ cursor. cursor < 2 ^ 62) cursors.now }
    requires kept { AreSorted kept.now }
    requires outside { (activations : List Activation) × IsLayoutOf layout.now activations
        × WrittenOutside activations frames.now (map kept_of kept.now) }
    ensures frames { IfOk result (λ epoch. epoch.frames ≡ frames.now) }
    ensures small { IfOk result (λ epoch. All (λ (s : Stretch). s.first + s.count < 2 ^ 64) epoch.leaves) }
    ensures plan { IfOk result (λ epoch. IsEpochPlanOf layout.now input.now frames.now (map kept_of kept.now) cursors.now epoch.plan
        (flat_map stretch_places epoch.leaves)) }
{
    let read = reading(alloc, layout, frames)?;
    let left = leaving(alloc, layout, frames, cursors, read.next)?;
    let plan = weave_rows(alloc, layout, frames, &read, &left, kept, input)?;
    let frames = List::from_slice(alloc, frames)?;
    let Left { stretches, .. } = left;
    Ok(ReadyPlan {
        plan,
        frames,
        leaves: stretches,
    })
}
