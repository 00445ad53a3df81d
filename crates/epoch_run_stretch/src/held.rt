ghost use Rattle.std.specs.Prelude.{◌≡◌, ◌≤◌, ◌<◌, ◌+◌, ◌++◌, [], IfOk, IfSome, OnOk, false, true, length, slice_index, slice_index_or, slice_set, take};
ghost use Rattle.epoch_run_batches.specs.Meant.{Run};
ghost use Rattle.epoch_run_batches.specs.Outcome.{AreAllMeant};
ghost use Rattle.epoch_run_stretch.specs.Gathered.{AreGathered, HaveMore, HoldAll, IsGathered, held_to};
ghost use Rattle.stream_match_layouts.specs.Layout.{IsLayout, IsLayoutOf};
ghost use Rattle.stream_match_layouts.specs.Spans.{frame_count};

use crate::consecutive::{add_ends, add_streams, all_consecutive};
use crate::ends::gather_ends;
use crate::streams::gather_stream;
use epoch_run_batches::BatchOutcome;
use epoch_run_in_order_laws::laws::apart_and_joined;
use flow_core_laws::{Elem, TaskEnd};
use os_io::{List, Memory};
use std::alloc::Global;
use stream_match_layouts::Layout;

/// Puts what batches came to after the ends and the elements of the activations that ran before: the ends of the other activations of a layout, and
/// what these wrote to the streams. `firsts` has the position of the first element that is held of each stream. It answers whether all of that is
/// there; where it isn't, what is held stays as it was. After `Memory` it may be anything, and the caller gives the run up.
pub fn gather(
    alloc: Global,
    layout: &Layout,
    outcomes: &[BatchOutcome],
    ends: &mut List<Option<TaskEnd>>,
    firsts: &[u64],
    elements: &mut List<List<Option<Elem>>>,
) -> Result<bool, Memory>
    requires layout { IsLayout layout.now }
    requires streams { length elements.old ≡ length layout.now.writers }
    requires firsts { length firsts.now ≡ length layout.now.writers }
    requires within { length ends.old ≤ frame_count layout.now }
    ensures streams { OnOk result (length elements.new ≡ length elements.old) }
    ensures all { IfOk result (λ all. all ≡ true → length ends.new ≡ frame_count layout.now) }
    ensures no_ends { IfOk result (λ all. all ≡ false → ends.new ≡ ends.old) }
    ensures no_elements { IfOk result (λ all. all ≡ false → elements.new ≡ elements.old) }
    ensures held { IfOk result (λ all. all ≡ true → (run : Run) → IsLayoutOf layout.now run.activations → AreAllMeant run outcomes.now
        → HoldAll (take (length ends.old) run.activations) run.input run.body ends.old elements.old firsts.now
        → HoldAll run.activations run.input run.body ends.new elements.new firsts.now) }
{
    apart_and_joined();
    if all_consecutive(layout, outcomes, ends.len(), firsts, elements.as_slice()) {
        add_ends(ends, outcomes)?;
        add_streams(elements, outcomes)?;
        return Ok(true);
    }
    gather_by_places(alloc, layout, outcomes, ends, firsts, elements)
}

/// The same where what the batches came to isn't consecutive, or something is missing: each end and each element is put in its place, and then it
/// is seen whether all of them are there.
fn gather_by_places(
    alloc: Global,
    layout: &Layout,
    outcomes: &[BatchOutcome],
    ends: &mut List<Option<TaskEnd>>,
    firsts: &[u64],
    elements: &mut List<List<Option<Elem>>>,
) -> Result<bool, Memory>
    requires layout { IsLayout layout.now }
    requires streams { length elements.old ≡ length layout.now.writers }
    requires firsts { length firsts.now ≡ length layout.now.writers }
    requires within { length ends.old ≤ frame_count layout.now }
    ensures streams { OnOk result (length elements.new ≡ length elements.old) }
    ensures all { IfOk result (λ all. all ≡ true → length ends.new ≡ frame_count layout.now) }
    ensures no_ends { IfOk result (λ all. all ≡ false → ends.new ≡ ends.old) }
    ensures no_elements { IfOk result (λ all. all ≡ false → elements.new ≡ elements.old) }
    ensures held { IfOk result (λ all. all ≡ true → (run : Run) → IsLayoutOf layout.now run.activations → AreAllMeant run outcomes.now
        → HoldAll (take (length ends.old) run.activations) run.input run.body ends.old elements.old firsts.now
        → HoldAll run.activations run.input run.body ends.new elements.new firsts.now) }
{
    apart_and_joined();
    let more = gather_ends(alloc, ends.len(), layout.frames(), outcomes)?;
    let Some(more) = more else {
        return Ok(false);
    };
    let parts = gather_streams(alloc, layout, outcomes, firsts, elements.as_slice())?;
    let Some(parts) = parts else {
        return Ok(false);
    };
    ends.extend_from_slice(more.as_slice())?;
    add_parts(elements, parts.as_slice())?;
    Ok(true)
}

/// All elements of the streams between what is held of them and their write cursors, if they are there.
fn gather_streams(
    alloc: Global,
    layout: &Layout,
    outcomes: &[BatchOutcome],
    firsts: &[u64],
    elements: &[List<Option<Elem>>],
) -> Result<Option<List<List<Option<Elem>>>>, Memory>
    requires firsts { length firsts.now ≡ length elements.now }
    requires cursors { length layout.now.cursors.writes ≡ length elements.now }
    ensures { IfOk result (λ parts. IfSome parts (AreGathered firsts.now elements.now layout.now outcomes.now (length elements.now))) }
{
    let mut parts: List<List<Option<Elem>>> = List::with_capacity(alloc, elements.len())?;
    for stream in 0..elements.len() {
        let part = gather_part(
            alloc,
            outcomes,
            stream,
            firsts[stream],
            elements[stream].len(),
            layout.cursors.writes.as_slice()[stream],
        )?;
        let Some(part) = part else {
            return Ok(None);
        };
        parts.push(part)?;
    }
    Ok(Some(parts))
}

/// All elements of a stream up to the position `to`, if they are there, without the `held` ones from the position `first` on; nothing of the input.
fn gather_part(
    alloc: Global,
    outcomes: &[BatchOutcome],
    stream: usize,
    first: u64,
    held: usize,
    to: u64,
) -> Result<Option<List<Option<Elem>>>, Memory>
    ensures { IfOk result (λ part. IfSome part (λ part. 1 ≤ stream → IsGathered (first + held) to outcomes.now stream part)) }
{
    if stream == 0 {
        return Ok(Some(List::new(alloc)));
    }
    let Some(from) = first.checked_add(held as u64) else {
        return Err(Memory);
    };
    gather_stream(alloc, stream, from, to, outcomes)
}

/// Puts a part after the elements of each stream but the input.
fn add_parts(
    elements: &mut List<List<Option<Elem>>>,
    parts: &[List<Option<Elem>>],
) -> Result<(), Memory>
    ensures { OnOk result (HaveMore (length elements.old) (λ stream. slice_index_or parts.now stream []) elements.old elements.new) }
{
    for stream in 1..elements.len() {
        add_part(elements, parts, stream)?;
    }
    Ok(())
}

/// Puts a part after the elements of one stream.
fn add_part(
    elements: &mut List<List<Option<Elem>>>,
    parts: &[List<Option<Elem>>],
    stream: usize,
) -> Result<(), Memory>
    requires { stream < length elements.old }
    ensures { OnOk result (elements.new
        ≡ slice_set elements.old stream (slice_index_or elements.old stream [] ++ slice_index_or parts.now stream [])) }
{
    if stream >= parts.len() {
        return Ok(());
    }
    elements.as_mut_slice()[stream].extend_from_slice(parts[stream].as_slice())?;
    Ok(())
}
