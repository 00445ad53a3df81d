//! The ends of activations, put in place by their numbers.

ghost use Rattle.std.specs.Prelude.{◌≡◌, ◌-◌, IfOk, IfSome, All, IsSome, length, true};
ghost use Rattle.epoch_run_batches.specs.Meant.{AreEndsMeant, IsEndMeant, Run};
ghost use Rattle.epoch_run_batches.specs.Outcome.{AreAllMeant};
ghost use Rattle.epoch_run_stretch.specs.Ends.{AreEndsFrom};

use epoch_run_batches::{BatchOutcome, Ended};
use flow_core_laws::TaskEnd;
use os_io::{List, Memory};
use std::alloc::Global;

/// The ends of the activations from the number `first` up to `count`, if all of them are there.
pub(crate) fn gather_ends(
    alloc: Global,
    first: usize,
    count: usize,
    outcomes: &[BatchOutcome],
) -> Result<Option<List<Option<TaskEnd>>>, Memory>
    ensures count { IfOk result (λ ends. IfSome ends (λ ends. length ends ≡ count - first)) }
    ensures all { IfOk result (λ ends. IfSome ends (λ ends. All IsSome ends)) }
    ensures meant { IfOk result (λ ends. IfSome ends (λ ends. (run : Run) → AreAllMeant run outcomes.now → AreEndsFrom run first ends)) }
{
    let mut ends: List<Option<TaskEnd>> = List::filled(alloc, None, count.saturating_sub(first))?;
    for outcome in outcomes {
        put_ends(&mut ends, first, outcome.ended.as_slice());
    }
    Ok(if all_there(ends.as_slice()) {
        Some(ends)
    } else {
        None
    })
}

/// Puts the ends of activations in place, where the list has a place for their numbers.
fn put_ends(ends: &mut List<Option<TaskEnd>>, first: usize, ended: &[Ended])
    ensures count { length ends.new ≡ length ends.old }
    ensures meant { (run : Run) → AreEndsMeant run ended.now → AreEndsFrom run first ends.old → AreEndsFrom run first ends.new }
{
    for ended in ended {
        put_end(ends, first, *ended);
    }
}

/// Puts an end in place.
fn put_end(ends: &mut List<Option<TaskEnd>>, first: usize, ended: Ended)
    ensures count { length ends.new ≡ length ends.old }
    ensures meant { (run : Run) → IsEndMeant run ended → AreEndsFrom run first ends.old → AreEndsFrom run first ends.new }
{
    let number = ended.number as usize;
    if number < first {
        return;
    }
    if number - first < ends.len() {
        ends.as_mut_slice()[number - first] = Some(ended.end);
    }
}

/// Whether all items are there.
pub(crate) fn all_there<T>(items: &[Option<T>]) -> bool
    ensures { result ≡ true → All IsSome items.now }
{
    for item in items {
        if item.is_none() {
            return false;
        }
    }
    true
}
