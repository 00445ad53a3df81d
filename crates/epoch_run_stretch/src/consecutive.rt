//! What batches came to where it is consecutive: each outcome goes on where the one before it ends, and nothing is missing. It is then put after
//! what is held as it stands, with one copy.

ghost use Rattle.std.specs.Prelude.{◌≡◌, ◌<◌, ◌+◌, ◌++◌, [], IfSome, OnOk, length, slice_index_or, slice_set, true};
ghost use Rattle.epoch_run_stretch.specs.Consecutive.{AreConsecutive, EndAllIn, GoOn, GoOnEnds, elements_in, ends_in, ends_of_batch, part_of};
ghost use Rattle.epoch_run_stretch.specs.Gathered.{HaveMore, IsGathered};
ghost use Rattle.stream_match_layouts.specs.Layout.{IsLayout};
ghost use Rattle.stream_match_layouts.specs.Spans.{frame_count};

use crate::ends::all_there;
use epoch_run_batches::{BatchOutcome, Ended};
use flow_core_laws::{Elem, TaskEnd};
use os_io::{List, Memory};
use stream_match_layouts::Layout;

/// Whether what outcomes came to is consecutive: the ends of the activations from the number `first` on, and the elements of each stream but the input,
/// between what is held of it and its write cursor.
pub(crate) fn all_consecutive(
    layout: &Layout,
    outcomes: &[BatchOutcome],
    first: usize,
    firsts: &[u64],
    elements: &[List<Option<Elem>>],
) -> bool
    requires layout { IsLayout layout.now }
    requires streams { length elements.now ≡ length layout.now.writers }
    requires firsts { length firsts.now ≡ length layout.now.writers }
    ensures ends { result ≡ true → EndAllIn outcomes.now first (frame_count layout.now) }
    ensures elements { result ≡ true → AreConsecutive firsts.now elements.now layout.now outcomes.now (length elements.now) }
{
    have_ended(outcomes, first, layout.frames())
        && are_consecutive(layout, outcomes, firsts, elements)
}

/// The elements that an outcome has of a stream.
fn part_of(outcome: &BatchOutcome, stream: usize) -> &[Option<Elem>]
    ensures { result.now ≡ part_of outcome.now stream }
{
    if stream >= outcome.wrote.elements.len() {
        return &[];
    }
    outcome.wrote.elements.as_slice()[stream].as_slice()
}

/// The position after the elements that an outcome has of a stream, if they begin at a position and all of them are there.
fn position_after(outcome: &BatchOutcome, stream: usize, position: u64) -> Option<u64>
    ensures { IfSome result (GoOn outcome.now stream position) }
{
    let part = part_of(outcome, stream);
    if part.len() == 0 {
        return Some(position);
    }
    if stream >= outcome.wrote.firsts.len() {
        return None;
    }
    if outcome.wrote.firsts.as_slice()[stream] != position {
        return None;
    }
    if !all_there(part) {
        return None;
    }
    position.checked_add(part.len() as u64)
}

/// Whether the elements that outcomes have of a stream are consecutive from the position `from` up to `to`.
fn is_consecutive(outcomes: &[BatchOutcome], stream: usize, from: u64, to: u64) -> bool
    ensures { result ≡ true → IsGathered from to outcomes.now stream (elements_in stream outcomes.now) }
{
    let mut position = from;
    for outcome in outcomes {
        let Some(next) = position_after(outcome, stream, position) else {
            return false;
        };
        position = next;
    }
    position == to
}

/// Whether the elements that outcomes have of a stream are consecutive up to the position `to`, after the `held` ones from the position `first` on.
fn goes_on(outcomes: &[BatchOutcome], stream: usize, first: u64, held: usize, to: u64) -> bool
    ensures { result ≡ true → IsGathered (first + held) to outcomes.now stream (elements_in stream outcomes.now) }
{
    let Some(from) = first.checked_add(held as u64) else {
        return false;
    };
    is_consecutive(outcomes, stream, from, to)
}

/// Whether the elements that outcomes have of each stream but the input are consecutive, between what is held of it and its write cursor.
fn are_consecutive(
    layout: &Layout,
    outcomes: &[BatchOutcome],
    firsts: &[u64],
    elements: &[List<Option<Elem>>],
) -> bool
    requires firsts { length firsts.now ≡ length elements.now }
    requires cursors { length layout.now.cursors.writes ≡ length elements.now }
    ensures { result ≡ true → AreConsecutive firsts.now elements.now layout.now outcomes.now (length elements.now) }
{
    for stream in 1..elements.len() {
        if !goes_on(
            outcomes,
            stream,
            firsts[stream],
            elements[stream].len(),
            layout.cursors.writes.as_slice()[stream],
        ) {
            return false;
        }
    }
    true
}

/// How many elements outcomes have of a stream, as far as a `usize` goes.
fn count_of(outcomes: &[BatchOutcome], stream: usize) -> usize {
    let mut count: usize = 0;
    for outcome in outcomes {
        count = count.saturating_add(part_of(outcome, stream).len());
    }
    count
}

/// Puts the elements that outcomes have of a stream after those that are held.
fn add_elements(
    held: &mut List<Option<Elem>>,
    outcomes: &[BatchOutcome],
    stream: usize,
) -> Result<(), Memory>
    ensures { OnOk result (held.new ≡ held.old ++ elements_in stream outcomes.now) }
{
    held.reserve(count_of(outcomes, stream))?;
    for outcome in outcomes {
        held.extend_from_slice(part_of(outcome, stream))?;
    }
    Ok(())
}

/// Puts the elements that outcomes have of one stream after those that are held.
fn add_stream(
    elements: &mut List<List<Option<Elem>>>,
    outcomes: &[BatchOutcome],
    stream: usize,
) -> Result<(), Memory>
    requires { stream < length elements.old }
    ensures { OnOk result (elements.new
        ≡ slice_set elements.old stream (slice_index_or elements.old stream [] ++ elements_in stream outcomes.now)) }
{
    add_elements(&mut elements.as_mut_slice()[stream], outcomes, stream)?;
    Ok(())
}

/// Puts the elements that outcomes have of each stream but the input after those that are held.
pub(crate) fn add_streams(
    elements: &mut List<List<Option<Elem>>>,
    outcomes: &[BatchOutcome],
) -> Result<(), Memory>
    ensures { OnOk result (HaveMore (length elements.old) (λ stream. elements_in stream outcomes.now) elements.old elements.new) }
{
    for stream in 1..elements.len() {
        add_stream(elements, outcomes, stream)?;
    }
    Ok(())
}

/// The number after those of the activations that ended, if they are consecutive from the number `first` on.
fn number_after(ended: &[Ended], first: usize) -> Option<usize>
    ensures { IfSome result (GoOnEnds ended.now first) }
{
    let mut number = first;
    for ended in ended {
        if ended.number as usize != number {
            return None;
        }
        number += 1;
    }
    Some(number)
}

/// Whether the activations that ended are consecutive, from the number `first` up to `count`.
fn have_ended(outcomes: &[BatchOutcome], first: usize, count: usize) -> bool
    ensures { result ≡ true → EndAllIn outcomes.now first count }
{
    let mut number = first;
    for outcome in outcomes {
        let Some(next) = number_after(outcome.ended.as_slice(), number) else {
            return false;
        };
        number = next;
    }
    number == count
}

/// Puts the ends of a batch after those that are held.
fn add_ends_of(ends: &mut List<Option<TaskEnd>>, ended: &[Ended]) -> Result<(), Memory>
    ensures { OnOk result (ends.new ≡ ends.old ++ ends_of_batch ended.now) }
{
    for ended in ended {
        ends.push(Some(ended.end))?;
    }
    Ok(())
}

/// Puts the ends that outcomes have after those that are held.
pub(crate) fn add_ends(
    ends: &mut List<Option<TaskEnd>>,
    outcomes: &[BatchOutcome],
) -> Result<(), Memory>
    ensures { OnOk result (ends.new ≡ ends.old ++ ends_in outcomes.now) }
{
    for outcome in outcomes {
        add_ends_of(ends, outcome.ended.as_slice())?;
    }
    Ok(())
}
