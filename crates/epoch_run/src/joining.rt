//! Joining stretches that go on from one another: what is done for each stretch is then done once for what many activations wrote.

ghost use Rattle.std.specs.Prelude.{◌≡◌, ◌+◌, ◌++◌, ◌^◌, ◌<◌, All, IfOk, IfSome, OnOk};
ghost use Rattle.std.specs.List.{flat_map};
ghost use Rattle.stream_match.specs.Stretch.{stretch_places};
ghost use Rattle.stream_match.specs.declared.stretch.Stretch.{Stretch};

use os_io::{List, Memory};
use std::alloc::Global;
use stream_match::Stretch;

/// The stretches with the same places, where each that goes on from the one before it is joined to that one.
pub(crate) fn joined(alloc: Global, stretches: &[Stretch]) -> Result<List<Stretch>, Memory>
    requires { All (λ (s : Stretch). s.first + s.count < 2 ^ 64) stretches.now }
    ensures places { IfOk result (λ joined. flat_map stretch_places joined ≡ flat_map stretch_places stretches.now) }
    ensures small { IfOk result (λ joined. All (λ (s : Stretch). s.first + s.count < 2 ^ 64) joined) }
{
    let mut joined = List::new(alloc);
    let mut last = Stretch {
        to: 0,
        stream: 0,
        first: 0,
        count: 0,
        at: 0,
    };
    for stretch in stretches {
        match both(last, *stretch) {
            Some(both) => last = both,
            None => {
                add(&mut joined, last)?;
                last = *stretch;
            }
        }
    }
    add(&mut joined, last)?;
    Ok(joined)
}

/// The stretch that two make, where the second one goes on from the first.
fn both(one: Stretch, next: Stretch) -> Option<Stretch>
    requires { one.first + one.count < 2 ^ 64 }
    ensures places { IfSome result (λ both. stretch_places both ≡ stretch_places one ++ stretch_places next) }
    ensures small { IfSome result (λ both. both.first + both.count ≡ next.first + next.count) }
{
    if one.stream != next.stream || one.first + u64::from(one.count) != next.first {
        return None;
    }
    let count = one.count.checked_add(next.count)?;
    Some(Stretch { count, ..one })
}

/// Adds a stretch, if it has a position.
fn add(stretches: &mut List<Stretch>, stretch: Stretch) -> Result<(), Memory>
    requires small { stretch.first + stretch.count < 2 ^ 64 }
    requires all_small { All (λ (s : Stretch). s.first + s.count < 2 ^ 64) stretches.old }
    ensures places { OnOk result (flat_map stretch_places stretches.new ≡ flat_map stretch_places stretches.old ++ stretch_places stretch) }
    ensures small { OnOk result (All (λ (s : Stretch). s.first + s.count < 2 ^ 64) stretches.new) }
{
    if stretch.count == 0 {
        return Ok(());
    }
    stretches.push(stretch)?;
    Ok(())
}
