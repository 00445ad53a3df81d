ghost use Rattle.std.specs.Prelude.{◌≡◌, ◌<◌, ◌↔◌, None, true, IfOk, IfSome, List, length, option_and_then, slice_set};
ghost use Rattle.flow_core_laws.specs.declared.activation.Activation.{Activation};
ghost use Rattle.flow_core_laws.specs.Outcome.{has_end_at};
ghost use Rattle.stream_match_layouts.specs.Layout.{IsLayout, IsLayoutOf};
ghost use Rattle.stream_match_layouts.specs.Spans.{frame_count};
ghost use Rattle.wait_certs_laws.specs.Walk.{IsWalk, waited_for};
ghost use Rattle.wait_certs.specs.Searching.{unmarked};

use collector::{first_missing, has_end};
use flow_core_laws::Ends;
use os_io::{List, Memory};
use std::alloc::Global;
use stream_match_layouts::Layout;

/// The walk of an activation that has no end: from it to the producer of its first missing element, and on, as long as one
/// comes that isn't in the walk yet. There is none for an activation that has an end. Where the ends are those of the meaning,
/// the walk is a chain, by which `check_chain` sees that its members starve.
pub fn walk(
    alloc: Global,
    layout: &Layout,
    ends: &Ends,
    frame: u32,
) -> Result<Option<List<u32>>, Memory>
    requires layout { IsLayout layout.now }
    requires exists { frame < frame_count layout.now }
    ensures none { IfOk result (λ answer. (answer ≡ None) ↔ (has_end_at ends.now.ends frame ≡ true)) }
    ensures walk { IfOk result (λ answer. IfSome answer (λ members. (activations : List Activation) → IsLayoutOf layout.now activations
        → IsWalk activations layout.now.input_len ends.now.ends frame members)) }
{
    if has_end(ends, frame) {
        return Ok(None);
    }
    let members = walk_from(alloc, layout, ends, frame)?;
    Ok(Some(members))
}

/// The walk from an activation on, by the ends so far.
fn walk_from(alloc: Global, layout: &Layout, ends: &Ends, frame: u32) -> Result<List<u32>, Memory>
    requires layout { IsLayout layout.now }
    requires exists { frame < frame_count layout.now }
    ensures { IfOk result (λ members. (activations : List Activation) → IsLayoutOf layout.now activations
        → IsWalk activations layout.now.input_len ends.now.ends frame members) }
{
    let mut marks = List::filled(alloc, false, layout.frames())?;
    let mut members = List::new(alloc);
    members.push(frame)?;
    mark(&mut marks, frame);
    let mut last = frame;
    'walking: while let Some(next) = next_unmarked(layout, ends, marks.as_slice(), last) {
        members.push(next)?;
        mark(&mut marks, next);
        last = next;
    }
    Ok(members)
}

/// Marks an activation as a member of the walk.
fn mark(marks: &mut List<bool>, member: u32)
    requires { member < length marks.old }
    ensures { marks.new ≡ slice_set marks.old member true }
{
    marks.as_mut_slice()[member as usize] = true;
}

/// The activation that an activation waits for, where it has no mark.
fn next_unmarked(layout: &Layout, ends: &Ends, marks: &[bool], frame: u32) -> Option<u32>
    requires layout { IsLayout layout.now }
    requires exists { frame < frame_count layout.now }
    requires marks { length marks.now ≡ frame_count layout.now }
    ensures exists { IfSome result (λ next. next < frame_count layout.now) }
    ensures next { (activations : List Activation) → IsLayoutOf layout.now activations
        → result ≡ option_and_then (unmarked marks.now) (waited_for activations layout.now.input_len ends.now.ends frame) }
{
    let next = producer_missed(layout, ends, frame)?;
    if marks[next as usize] {
        None
    } else {
        Some(next)
    }
}

/// The producer of the first missing element of an activation.
fn producer_missed(layout: &Layout, ends: &Ends, frame: u32) -> Option<u32>
    requires layout { IsLayout layout.now }
    requires exists { frame < frame_count layout.now }
    ensures exists { IfSome result (λ next. next < frame_count layout.now) }
    ensures next { (activations : List Activation) → IsLayoutOf layout.now activations
        → result ≡ waited_for activations layout.now.input_len ends.now.ends frame }
{
    let missing = first_missing(layout, ends, frame)?;
    missing.producer
}
