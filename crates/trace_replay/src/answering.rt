//! What is answered behind the heads that could run.
ghost use Rattle.std.specs.Prelude.{◌≡◌, ◌≢◌, ◌<◌, ◌≤◌, ◌+◌, ℕ, None, Some, All, IfSome, IfNone, IsSome, true, false, length, slice_index};
ghost use Rattle.flow_core_laws.specs.Limits.{activations_limit, workers_limit};
ghost use Rattle.flow_core_laws.specs.Plans.{frame_at, held_at};
ghost use Rattle.flow_core_laws.specs.IsSound.{IsSound, HasCell};
ghost use Rattle.flow_core.specs.Counted.{IsCounted};
ghost use Rattle.flow_core.specs.Shows.{end_at};
ghost use Rattle.trace_replay_laws.specs.Lists.{number_in};
ghost use Rattle.trace_replay.specs.Standing.{IsFirstLeft, IsFirstHole, MayRun, IsLeastFree};

use crate::lists::head;
use flow_core::{Board, Plan};
use os_io::List;

/// The first list that isn't used up, and its head.
pub(crate) fn first_left(lists: &[List<u32>], places: &[usize]) -> Option<(u32, u32)>
    requires few { length lists.now ≤ workers_limit }
    requires places { length places.now ≡ length lists.now }
    ensures some { IfSome result (λ it. IsFirstLeft lists.now places.now it.0 it.1) }
    ensures none { IfNone result ((k : ℕ) → k < length lists.now → number_in lists.now k (slice_index places.now k) ≡ None) }
{
    for list in 0..lists.len() {
        if let Some(frame) = head(lists, list, places[list]) {
            return Some((list as u32, frame));
        }
    }
    None
}

/// The first cell of a frame that holds nothing, where there is one.
pub(crate) fn first_hole(board: &Board, plan: &Plan, frame: u32) -> u32
    requires sound { IsSound plan.now }
    requires exists { frame < length plan.now.frames }
    requires counted { IsCounted plan.now board.now.cells.items board.now.waits }
    requires misses { slice_index board.now.waits.missing.items frame ≢ 0 }
    ensures { IsFirstHole plan.now board.now.cells.items frame result }
{
    let place = plan.frame(frame);
    for cell in place.cell..place.cell + place.inputs {
        if board.cells[cell as usize].is_none() {
            return cell;
        }
    }
    unreachable!()
}

/// Whether a frame misses nothing and has no end.
fn may_run(board: &Board, frame: usize) -> bool
    requires waits { frame < length board.now.waits.missing.items }
    requires ends { frame < length board.now.ends.items }
    ensures yes { result ≡ true → MayRun board.now frame }
    ensures no { result ≡ false → ¬ (MayRun board.now frame) }
{
    if board.waits.missing[frame] != 0 {
        return false;
    }
    board.ends[frame].is_none()
}

/// The least frame that misses nothing and didn't run.
pub(crate) fn first_free(board: &Board, plan: &Plan) -> Option<u32>
    requires few { length plan.now.frames ≤ activations_limit }
    requires waits { length board.now.waits.missing.items ≡ length plan.now.frames }
    requires ends { length board.now.ends.items ≡ length plan.now.frames }
    ensures some { IfSome result (λ frame. IsLeastFree plan.now board.now frame) }
    ensures none { IfNone result ((f : ℕ) → f < length plan.now.frames → ¬ (MayRun board.now f)) }
{
    for frame in 0..plan.frames.len() {
        if may_run(board, frame) {
            return Some(frame as u32);
        }
    }
    None
}
