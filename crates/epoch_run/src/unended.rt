//! Listing the activations that have no end: so an epoch looks at these and at the new ones alone.

ghost use Rattle.std.specs.Prelude.{◌≡◌, ◌≤◌, [], IfOk, filter, is_none, length};
ghost use Rattle.flow_core_laws.specs.Outcome.{outcome_at};
ghost use Rattle.flow_core_epochs.specs.Epoch.{open_in};

use flow_core_laws::TaskEnd;
use os_io::{List, Memory};
use std::alloc::Global;

/// The activations below a number that have no end: those that were listed when the ends were put, and behind them the new
/// ones.
pub(crate) fn with_new(
    mut listed: List<u32>,
    ends: &[Option<TaskEnd>],
    count: u32,
) -> Result<List<u32>, Memory>
    requires listed { listed ≡ open_in ends.now (length ends.now) }
    requires more { length ends.now ≤ count }
    ensures { IfOk result (λ all. all ≡ open_in ends.now count) }
{
    let first = ends.len() as u32;
    listed.reserve((count - first) as usize)?;
    for activation in first..count {
        listed.push(activation)?;
    }
    Ok(listed)
}

/// The activations among these that have no end: all of them where none ran.
pub(crate) fn still_open(
    alloc: Global,
    activations: List<u32>,
    frames: &[u32],
    ends: &[Option<TaskEnd>],
) -> Result<List<u32>, Memory>
    requires { frames.now ≡ [] → activations ≡ filter (λ a. is_none (outcome_at ends.now a)) activations }
    ensures { IfOk result (λ left. left ≡ filter (λ a. is_none (outcome_at ends.now a)) activations) }
{
    if frames.is_empty() {
        return Ok(activations);
    }
    without_end(alloc, activations.as_slice(), ends)
}

/// Those among the activations that have no end.
fn without_end(
    alloc: Global,
    activations: &[u32],
    ends: &[Option<TaskEnd>],
) -> Result<List<u32>, Memory>
    ensures { IfOk result (λ left. left ≡ filter (λ a. is_none (outcome_at ends.now a)) activations.now) }
{
    let mut left = List::new(alloc);
    for activation in activations {
        if has_no_end(ends, *activation) {
            left.push(*activation)?;
        }
    }
    Ok(left)
}

/// Whether an activation has no end.
fn has_no_end(ends: &[Option<TaskEnd>], activation: u32) -> bool
    ensures { result ≡ is_none (outcome_at ends.now activation) }
{
    match ends.get(activation as usize) {
        Some(end) => end.is_none(),
        None => true,
    }
}
