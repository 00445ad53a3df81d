//! The elements of streams, put in place by their positions.

ghost use Rattle.std.specs.Prelude.{◌≡◌, ◌+◌, ◌-◌, ℕ, Some, IfOk, IfSome, All, IsSome, length};
ghost use Rattle.epoch_run_batches.specs.Meant.{AreMeant, HoldMeant, Run, element_meant};
ghost use Rattle.epoch_run_batches.specs.Outcome.{AreAllMeant};

use crate::ends::all_there;
use epoch_run_batches::{BatchOutcome, Streams};
use flow_core_laws::Elem;
use os_io::{List, Memory};
use std::alloc::Global;

/// The elements of a stream at the positions from `from` up to `to`, if all of them are there.
pub(crate) fn gather_stream(
    alloc: Global,
    stream: usize,
    from: u64,
    to: u64,
    outcomes: &[BatchOutcome],
) -> Result<Option<List<Option<Elem>>>, Memory>
    ensures count { IfOk result (λ elements. IfSome elements (λ elements. length elements ≡ to - from)) }
    ensures all { IfOk result (λ elements. IfSome elements (λ elements. All IsSome elements)) }
    ensures meant { IfOk result (λ elements. IfSome elements (λ elements. (run : Run) → AreAllMeant run outcomes.now
        → AreMeant run stream from elements)) }
{
    let Ok(count) = usize::try_from(to.saturating_sub(from)) else {
        return Err(Memory);
    };
    let mut elements: List<Option<Elem>> = List::filled(alloc, None, count)?;
    for outcome in outcomes {
        put_stream(&mut elements, stream, from, &outcome.wrote);
    }
    Ok(if all_there(elements.as_slice()) {
        Some(elements)
    } else {
        None
    })
}

/// Puts the elements that streams hold of one stream in place, where the list has a place for their positions.
fn put_stream(elements: &mut List<Option<Elem>>, stream: usize, from: u64, wrote: &Streams)
    ensures count { length elements.new ≡ length elements.old }
    ensures meant { (run : Run) → HoldMeant run wrote.now → AreMeant run stream from elements.old → AreMeant run stream from elements.new }
{
    if stream >= wrote.firsts.len() {
        return;
    }
    if stream >= wrote.elements.len() {
        return;
    }
    put_elements(
        elements,
        from,
        wrote.firsts.as_slice()[stream],
        wrote.elements.as_slice()[stream].as_slice(),
    );
}

/// Puts the elements of a stream from the position `first` on in place, those that are there.
fn put_elements(elements: &mut List<Option<Elem>>, from: u64, first: u64, held: &[Option<Elem>])
    ensures count { length elements.new ≡ length elements.old }
    ensures meant { (run : Run) (stream : ℕ) → AreMeant run stream first held.now → AreMeant run stream from elements.old
        → AreMeant run stream from elements.new }
{
    for (place, element) in held.iter().enumerate() {
        if let Some(element) = element {
            put_element(elements, from, first, place, *element);
        }
    }
}

/// Puts the element at the position `place` after `first` in place.
fn put_element(
    elements: &mut List<Option<Elem>>,
    from: u64,
    first: u64,
    place: usize,
    element: Elem,
)
    ensures count { length elements.new ≡ length elements.old }
    ensures meant { (run : Run) (stream : ℕ) → element_meant run stream (first + place) ≡ Some element → AreMeant run stream from elements.old
        → AreMeant run stream from elements.new }
{
    let Some(position) = first.checked_add(place as u64) else {
        return;
    };
    if position < from {
        return;
    }
    let at = position - from;
    if at < elements.len() as u64 {
        elements.as_mut_slice()[at as usize] = Some(element);
    }
}
