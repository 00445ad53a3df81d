//! Places of a list of activations, where others are made.

ghost use Rattle.std.specs.Prelude.{◌≡◌, ◌+◌, ◌-◌, ◌^◌, ◌++◌, ◌<◌, ◌≤◌, true, IfOk, IfSome, OnOk, Some, drop, length, slice_get, slice_set, take};
ghost use Rattle.os_ast.specs.Limits.{items_limit};
ghost use Rattle.control_run.specs.Spawning.{HasShape, no_activation};
ghost use Rattle.control_run.specs.Sparing.{FitsAt};

use flow_core_laws::{Activation, Claim};
use os_ast::ITEMS_LIMIT;
use os_io::{List, Memory};
use std::alloc::Global;
use std::mem;

/// How many others are looked at where the one in a place doesn't fit.
const LOOKS: usize = 8;

/// What stands in a claim before it is set.
const BLANK: Claim = Claim {
    stream: 0,
    write: false,
    horizon: 0,
    burst: 0,
    skip: 0,
};

/// Sees to it that an activation with lists of these lengths stands in a place, whatever stands in them: the one that is there,
/// one from behind it, or a new one. Only a new one takes memory; those before the place stay.
#[inline(always)]
pub(crate) fn make_place(
    alloc: Global,
    activations: &mut List<Activation>,
    place: usize,
    captured: usize,
    claims: usize,
) -> Result<(), Memory>
    requires few { claims ≤ items_limit }
    requires there { place ≤ length activations.old }
    ensures kept { take place activations.new ≡ take place activations.old }
    ensures there { place ≤ length activations.new }
    ensures fits { OnOk result (FitsAt place captured claims activations.new) }
    ensures next { OnOk result (place + 1 < 2 ^ 64) }
{
    if place < activations.len() && has_shape(&activations.as_slice()[place], captured, claims) {
        return Ok(());
    }
    find_other(alloc, activations, place, captured, claims)?;
    Ok(())
}

/// Whether an activation has lists of these lengths.
#[inline(always)]
fn has_shape(one: &Activation, captured: usize, claims: usize) -> bool
    ensures { result ≡ true → HasShape captured claims one.now }
{
    one.captured.len() == captured && one.claims.len() == claims
}

/// Sees to it as `make_place` does, where the activation that is there doesn't fit, or none is there.
#[inline(never)]
fn find_other(
    alloc: Global,
    activations: &mut List<Activation>,
    place: usize,
    captured: usize,
    claims: usize,
) -> Result<(), Memory>
    requires few { claims ≤ items_limit }
    requires there { place ≤ length activations.old }
    ensures kept { take place activations.new ≡ take place activations.old }
    ensures there { place ≤ length activations.new }
    ensures fits { OnOk result (FitsAt place captured claims activations.new) }
    ensures next { OnOk result (place + 1 < 2 ^ 64) }
{
    match fitting_from(activations.as_slice(), place, captured, claims) {
        Some(other) => {
            activations.as_mut_slice().swap(place, other);
            Ok(())
        }
        None => {
            let one = blank(alloc, captured, claims)?;
            let _next = put_at(activations, place, one)?;
            Ok(())
        }
    }
}

/// Where, from a place on, an activation with lists of these lengths stands: the last one, or one of the next.
fn fitting_from(
    activations: &[Activation],
    place: usize,
    captured: usize,
    claims: usize,
) -> Option<usize>
    ensures { IfSome result (λ other. (place ≤ other) × FitsAt other captured claims activations.now) }
{
    let count = activations.len();
    if place < count && has_shape(&activations[count - 1], captured, claims) {
        return Some(count - 1);
    }
    for other in place..count.min(place.saturating_add(LOOKS)) {
        if has_shape(&activations[other], captured, claims) {
            return Some(other);
        }
    }
    None
}

/// Puts an activation in a place, in which one may stand already. It answers the next place.
fn put_at(
    activations: &mut List<Activation>,
    place: usize,
    one: Activation,
) -> Result<usize, Memory>
    requires there { place ≤ length activations.old }
    ensures kept { take place activations.new ≡ take place activations.old }
    ensures there { place ≤ length activations.new }
    ensures put { OnOk result (slice_get activations.new place ≡ Some one) }
    ensures next { IfOk result (λ next. next ≡ place + 1) }
{
    if place < activations.len() {
        let _old = mem::replace(&mut activations.as_mut_slice()[place], one);
        return Ok(place + 1);
    }
    activations.push(one)?;
    Ok(activations.len())
}

/// An activation with new lists of these lengths.
fn blank(alloc: Global, captured: usize, claims: usize) -> Result<Activation, Memory>
    requires few { claims ≤ items_limit }
    ensures { IfOk result (HasShape captured claims) }
{
    Ok(Activation {
        site: 0,
        captured: List::filled(alloc, 0, captured)?,
        claims: List::from_slice(alloc, &[BLANK; ITEMS_LIMIT][..claims])?,
    })
}

/// Moves activations of a list, from a place on and up to another, behind those of a second one, and answers how many: fewer than
/// all where memory is wanting.
pub(crate) fn move_some(
    alloc: Global,
    activations: &mut List<Activation>,
    first: usize,
    end: usize,
    into: &mut List<Activation>,
) -> usize
    requires order { first ≤ end }
    requires there { end ≤ length activations.old }
    ensures few { result ≤ end - first }
    ensures kept { length activations.new ≡ length activations.old }
    ensures list { into.new ≡ into.old ++ take result (drop first activations.old) }
{
    let count = end - first;
    for moved in 0..count {
        let one = take_out(alloc, activations, first + moved);
        if into.push(one).is_err() {
            return moved;
        }
    }
    count
}

/// Takes the activation at a place out of a list, to be moved without a copy, and leaves an empty one there: of site 0, without captured values
/// and claims. It takes no memory.
pub fn take_out(alloc: Global, activations: &mut List<Activation>, place: usize) -> Activation
    requires { place < length activations.old }
    ensures taken { slice_get activations.old place ≡ Some result }
    ensures left { activations.new ≡ slice_set activations.old place no_activation }
{
    let empty = Activation {
        site: 0,
        captured: List::new(alloc),
        claims: List::new(alloc),
    };
    mem::replace(&mut activations.as_mut_slice()[place], empty)
}
