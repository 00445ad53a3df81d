ghost use Rattle.std.specs.Prelude.{◌≡◌, ◌+◌, ◌^◌, ◌<◌, ◌≤◌, [], ◌∷◌, ◌++◌, All, List, OnOk, length, map, filter, nat_le, slice_index, ◌&&◌};
ghost use Rattle.std.specs.List.{flat_map};
ghost use Rattle.flow_core_laws.specs.declared.activation.Activation.{Activation};
ghost use Rattle.flow_core_laws.specs.declared.place.Place.{Place};
ghost use Rattle.flow_core_laws.specs.Place.{places_from};
ghost use Rattle.stream_match_layouts.specs.Layout.{IsLayout, IsLayoutOf};
ghost use Rattle.stream_match_layouts.specs.Spans.{frame_count};
ghost use Rattle.flow_core_epochs.specs.Epoch.{elements_at, carried_over};
ghost use Rattle.stream_match.specs.declared.stretch.Stretch.{Stretch};
ghost use Rattle.stream_match.specs.Kept.{kept_of};
ghost use Rattle.stream_match.specs.Stretch.{stretch_places};
ghost use Rattle.epoch_run_carrying.specs.Carrying.{is_behind, carried_by, passed_over};

use flow_core_laws::Elem;
use os_io::Memory;
use std::alloc::Global;
use stream_match::{Kept, Layout, Stretch, read_cursors};

/// Leaves of the elements that were kept for an epoch what is carried over from it, where it leaves some frames open, by a layout
/// of all activations so far, and adds what is carried over of those that left it: the values are those of the first stretch,
/// then those of the second, and so on. With nothing kept and nothing that left it looks at no activation. After `Memory` any of
/// them may be missing.
pub fn carry_over(
    alloc: Global,
    layout: &Layout,
    open_frames: &[u32],
    kept: &mut Vec<Kept>,
    leaves: &[Stretch],
    values: &[Option<Elem>],
) -> Result<(), Memory>
    requires layout { IsLayout layout.now }
    requires exist { All (λ f. f < frame_count layout.now) open_frames.now }
    requires kept_exist { All (λ k. k.stream < length layout.now.writers) kept.old.items }
    requires small { All (λ (s : Stretch). s.first + s.count < 2 ^ 64) leaves.now }
    requires places_exist { All (λ (p : Place). p.stream < length layout.now.writers) (flat_map stretch_places leaves.now) }
    requires as_many { length values.now ≡ length (flat_map stretch_places leaves.now) }
    ensures { OnOk result ((activations : List Activation) → IsLayoutOf layout.now activations
        → map kept_of kept.new.items
        ≡ carried_over activations open_frames.now (map kept_of kept.old.items) (flat_map stretch_places leaves.now) values.now) }
{
    if kept.is_empty() && leaves.is_empty() {
        return Ok(());
    }
    let cursors = read_cursors(alloc, layout, open_frames)?;
    carry(cursors.as_slice(), kept, leaves, values)?;
    Ok(())
}

/// Leaves what is carried over by the cursors of the streams: of the elements that were kept and of those that left an epoch,
/// the ones on declared streams at the cursors or behind.
fn carry(
    cursors: &[u64],
    kept: &mut Vec<Kept>,
    leaves: &[Stretch],
    values: &[Option<Elem>],
) -> Result<(), Memory>
    requires small { All (λ (s : Stretch). s.first + s.count < 2 ^ 64) leaves.now }
    requires as_many { length values.now ≡ length (flat_map stretch_places leaves.now) }
    ensures { OnOk result (map kept_of kept.new.items
        ≡ carried_by cursors.now (map kept_of kept.old.items) (flat_map stretch_places leaves.now) values.now) }
{
    leave_behind(kept, cursors);
    carry_left(kept, cursors, leaves, values)
}

/// Leaves those of the kept elements that may still be read.
fn leave_behind(kept: &mut Vec<Kept>, cursors: &[u64])
    ensures { map kept_of kept.new.items ≡ filter (is_behind cursors.now) (map kept_of kept.old.items) }
{
    kept.retain(|k| may_be_read(cursors, k.stream, k.position));
}

/// Whether a position of a stream may still be read: it is of a declared stream, and at the cursor or behind.
fn may_be_read(cursors: &[u64], stream: u32, position: u64) -> bool
    ensures { result ≡ (nat_le 2 stream && nat_le (slice_index cursors.now stream) position) }
{
    stream >= 2 && position >= cursor_of(cursors, stream as usize)
}

/// The cursor of a stream, and 0 where it has none.
pub fn cursor_of(cursors: &[u64], stream: usize) -> u64
    ensures { result ≡ slice_index cursors.now stream }
{
    match cursors.get(stream) {
        Some(cursor) => *cursor,
        None => 0,
    }
}

/// Carries over the elements that left.
fn carry_left(
    carried: &mut Vec<Kept>,
    cursors: &[u64],
    leaves: &[Stretch],
    values: &[Option<Elem>],
) -> Result<(), Memory>
    requires small { All (λ (s : Stretch). s.first + s.count < 2 ^ 64) leaves.now }
    requires as_many { length values.now ≡ length (flat_map stretch_places leaves.now) }
    ensures { OnOk result (map kept_of carried.new.items ≡ map kept_of carried.old.items
        ++ filter (is_behind cursors.now) (elements_at (flat_map stretch_places leaves.now) values.now)) }
{
    let mut at = 0;
    for leaving in leaves {
        let end = at + leaving.count as usize;
        carry_stretch(carried, cursors, *leaving, &values[at..end])?;
        at = end;
    }
    Ok(())
}

/// Carries over the elements of a stretch, those of them that are there and may still be read.
fn carry_stretch(
    carried: &mut Vec<Kept>,
    cursors: &[u64],
    leaving: Stretch,
    values: &[Option<Elem>],
) -> Result<(), Memory>
    requires small { leaving.first + leaving.count < 2 ^ 64 }
    requires as_many { length values.now ≡ leaving.count }
    ensures { OnOk result (map kept_of carried.new.items ≡ map kept_of carried.old.items
        ++ filter (is_behind cursors.now) (elements_at (stretch_places leaving) values.now)) }
{
    let passed = passed_over(cursors, leaving);
    if passed == leaving.count {
        return Ok(());
    }
    let first = leaving.first + u64::from(passed);
    add_elements(carried, leaving.stream, first, &values[passed as usize..])?;
    Ok(())
}

/// How many positions of a stretch lie before the first one that may still be read: all, where its stream isn't a declared one.
fn passed_over(cursors: &[u64], leaving: Stretch) -> u32
    ensures within { result ≤ leaving.count }
    ensures passed { result ≡ passed_over cursors.now leaving }
{
    if leaving.stream < 2 {
        return leaving.count;
    }
    let before = cursor_of(cursors, leaving.stream as usize).saturating_sub(leaving.first);
    before.min(u64::from(leaving.count)) as u32
}

/// Adds the elements at positions of a stream from a first one on, those that are there. After `Memory` some of them may be missing.
pub fn add_elements(
    carried: &mut Vec<Kept>,
    stream: u32,
    first: u64,
    values: &[Option<Elem>],
) -> Result<(), Memory>
    requires { first + length values.now < 2 ^ 64 }
    ensures { OnOk result (map kept_of carried.new.items ≡ map kept_of carried.old.items
        ++ elements_at (places_from stream first (length values.now)) values.now) }
{
    for (number, value) in values.iter().enumerate() {
        add_element(carried, stream, first + number as u64, *value)?;
    }
    Ok(())
}

/// Adds the element at a position of a stream, if it is there.
fn add_element(
    carried: &mut Vec<Kept>,
    stream: u32,
    position: u64,
    value: Option<Elem>,
) -> Result<(), Memory>
    ensures { OnOk result (map kept_of carried.new.items ≡ map kept_of carried.old.items
        ++ elements_at (record { stream = stream; position = position } ∷ []) (value ∷ [])) }
{
    let Some(value) = value else {
        return Ok(());
    };
    carried.push(Kept {
        stream,
        position,
        value,
    })?;
    Ok(())
}
