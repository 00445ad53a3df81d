//! What an epoch came to, put over what was before.

ghost use Rattle.std.specs.Prelude.{◌≡◌, ◌<◌, ◌≤◌, ℕ, OnOk, Some, length, slice_get};
ghost use Rattle.std.specs.List.{flat_map};
ghost use Rattle.flow_core_laws.specs.Outcome.{outcome_at};
ghost use Rattle.flow_core_epochs.specs.Epoch.{output_over, put_over};
ghost use Rattle.flow_core_laws.specs.Place.{places_from};
ghost use Rattle.stream_match.specs.Stretch.{stretch_places};

use flow_core_epochs::put_over;
use flow_core_laws::{Elem, TaskEnd};
use os_io::{List, Memory};
use stream_match::Stretch;

/// The largest power of two that a `usize` holds.
const MOST_ROOM: usize = 1 << 63;

/// For how many items a list has room from the start. An allocator hands so large a block out untouched, and what isn't used of it costs
/// nothing; a list that grows from less is copied several times, and leaves a hole behind each time.
const ROOM: usize = 1 << 20;

/// Puts the ends of an epoch's frames over those of all `count` activations.
pub(crate) fn take_ends(
    ends: &mut List<Option<TaskEnd>>,
    count: usize,
    frames: &[u32],
    frame_ends: &[Option<TaskEnd>],
) -> Result<(), Memory>
    requires more { length ends.old ≤ count }
    requires fit { length frame_ends.now ≡ length frames.now }
    requires exist { (f a : ℕ) → slice_get frames.now f ≡ Some a → a < count }
    requires differ { (f g a : ℕ) → slice_get frames.now f ≡ Some a → slice_get frames.now g ≡ Some a → f ≡ g }
    ensures { OnOk result (ends.new ≡ put_over ends.old frames.now frame_ends.now count) }
{
    grow(ends, count)?;
    put_over(ends.as_mut_slice(), frames, frame_ends);
    Ok(())
}

/// Puts the elements that left an epoch at their positions of the output, which then has `count` positions. The elements are those of
/// the first stretch, then those of the second, and so on.
pub(crate) fn take_output(
    output: &mut List<Option<Elem>>,
    count: usize,
    leaves: &[Stretch],
    values: &[Option<Elem>],
) -> Result<(), Memory>
    requires longer { length output.old ≤ count }
    requires fit { length values.now ≡ length (flat_map stretch_places leaves.now) }
    ensures { OnOk result (output.new ≡ output_over output.old (flat_map stretch_places leaves.now) values.now count) }
{
    grow(output, count)?;
    put_output(output.as_mut_slice(), leaves, values);
    Ok(())
}

/// Makes a list `count` items long, with nothing at the places that it didn't have.
fn grow<T: Drop>(list: &mut List<Option<T>>, count: usize) -> Result<(), Memory>
    requires { length list.old ≤ count }
    ensures length { OnOk result (length list.new ≡ count) }
    ensures same { OnOk result ((at : ℕ) → outcome_at list.new at ≡ outcome_at list.old at) }
{
    list.reserve(room_for(count).saturating_sub(list.len()))?;
    'growing: while list.len() < count {
        list.push(None)?;
    }
    Ok(())
}

/// How much room to reserve for a list that grows to this many items: the next power of two, and at least a million.
fn room_for(count: usize) -> usize {
    if count > MOST_ROOM {
        return count;
    }
    count.next_power_of_two().max(ROOM)
}

/// Puts the elements that left an epoch at their positions of the output, the last stretch first.
fn put_output(output: &mut [Option<Elem>], leaves: &[Stretch], values: &[Option<Elem>])
    requires { length values.now ≡ length (flat_map stretch_places leaves.now) }
    ensures { output.new ≡ output_over output.old (flat_map stretch_places leaves.now) values.now (length output.old) }
{
    let mut left = leaves.len();
    let mut end = values.len();
    'putting: while left > 0 {
        left -= 1;
        let leaving = leaves[left];
        let first = end - leaving.count as usize;
        put_stretch(output, leaving, &values[first..end]);
        end = first;
    }
}

/// Puts the elements of a stretch at their positions of the output, if they are of the output.
fn put_stretch(output: &mut [Option<Elem>], leaving: Stretch, values: &[Option<Elem>])
    requires { length values.now ≡ leaving.count }
    ensures { output.new ≡ output_over output.old (stretch_places leaving) values.now (length output.old) }
{
    if leaving.stream == 1 {
        put_from(output, leaving.first, values);
    }
}

/// Puts elements at the positions from a first one on, as far as there are such.
fn put_from(output: &mut [Option<Elem>], first: u64, values: &[Option<Elem>])
    ensures { output.new ≡ output_over output.old (places_from 1 first (length values.now)) values.now (length output.old) }
{
    let first = first.min(output.len() as u64) as usize;
    let count = values.len().min(output.len() - first);
    output[first..first + count].copy_from_slice(&values[..count]);
}
