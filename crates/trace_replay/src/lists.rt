//! Numbers in lists.
ghost use Rattle.std.specs.Prelude.{◌≡◌, ◌+◌, ◌<◌, ◌≤◌, ◌^◌, ℕ, All, IfSome, IfNone, length, slice_index};
ghost use Rattle.flow_core_laws.specs.Limits.{workers_limit};
ghost use Rattle.trace_replay_laws.specs.Lists.{number_in, AreBelow, IsFirstStranger};

use os_io::List;

/// The place of a list's first number that isn't below a bound.
fn first_not_below(frames: usize, list: &[u32]) -> Option<usize>
    ensures some { IfSome result (λ place. (place < length list.now) × (frames ≤ slice_index list.now place)
        × ((k : ℕ) → k < place → slice_index list.now k < frames)) }
    ensures none { IfNone result ((k : ℕ) → k < length list.now → slice_index list.now k < frames) }
{
    for (place, frame) in list.iter().enumerate() {
        if *frame as usize >= frames {
            return Some(place);
        }
    }
    None
}

/// The list and the place there of the first number that isn't below a bound.
pub(crate) fn first_stranger(frames: usize, lists: &[List<u32>]) -> Option<(u32, u32)>
    requires few { length lists.now ≤ workers_limit }
    requires short { All (λ list. length list < 2 ^ 32) lists.now }
    ensures some { IfSome result (λ it. IsFirstStranger frames lists.now it.0 it.1) }
    ensures none { IfNone result (AreBelow frames lists.now) }
{
    for (list, numbers) in lists.iter().enumerate() {
        if let Some(place) = first_not_below(frames, numbers.as_slice()) {
            return Some((list as u32, place as u32));
        }
    }
    None
}

/// The head of a list of which `place` numbers are used up, if one is left.
pub(crate) fn head(lists: &[List<u32>], list: usize, place: usize) -> Option<u32>
    requires { list < length lists.now }
    ensures number { result ≡ number_in lists.now list place }
    ensures room { IfSome result (λ _. place + 1 < 2 ^ 64) }
{
    let numbers = lists[list].as_slice();
    if place >= numbers.len() {
        return None;
    }
    Some(numbers[place])
}
