//! How a worker finds a frame.
ghost use Rattle.std.specs.Prelude.{◌≡◌, ◌+◌, ◌≤◌, ◌<◌, ◌^◌, None, IfSome, IfNone, length};
ghost use Rattle.os_io.specs.Counts.{raised};
ghost use Rattle.frame_table.specs.Tokens.{IsSeatOf, view_of, known_of};
ghost use Rattle.steal_pool.specs.Hands.{pushed_by, bound_of, spare_of, asks_of, KeepsDeques};
ghost use Rattle.task_workers_worker.specs.Ready.{frames_of};
ghost use Rattle.task_workers_worker.specs.Turns.{Claimed, Idled};

use frame_table::{FrameSeat, FrameTable};
use steal_pool::{Hand, Look};

// Claims a frame that it finds Open by at most 64 looks.
fn search(table: &FrameTable, seat: &mut FrameSeat) -> Option<u32>
    requires of_this_table { IsSeatOf table.now seat.old }
    requires has_frames { 1 ≤ frames_of table.now }
    requires idle { (view_of seat.old).run ≡ None }
    requires looks { (view_of seat.old).looks < 2 ^ 62 }
    ensures of_this_table { IsSeatOf table.now seat.new }
    ensures claimed { IfSome result (λ f. Claimed (known_of table.now) (view_of seat.old) (view_of seat.new) f) }
    ensures none { IfNone result (Idled (view_of seat.old) (view_of seat.new)) }
    ensures looks { IfNone result ((view_of seat.new).looks ≡ (view_of seat.old).looks + 64) }
    ensures found_looks { IfSome result (λ f. (view_of seat.new).looks ≡ 0) }
{
    for _ in 0..64u64 {
        let Some(frame) = table.look(seat) else {
            continue;
        };
        if table.claim(seat, frame) {
            return Some(frame);
        }
    }
    None
}

// Claims the frame that the hand gives.
fn ask(table: &FrameTable, seat: &mut FrameSeat, hand: &mut Hand) -> Option<u32>
    requires of_this_table { IsSeatOf table.now seat.old }
    requires bounded { bound_of hand.old ≡ frames_of table.now }
    requires idle { (view_of seat.old).run ≡ None }
    requires looks { (view_of seat.old).looks < 2 ^ 61 }
    ensures of_this_table { IsSeatOf table.now seat.new }
    ensures claimed { IfSome result (λ f. Claimed (known_of table.now) (view_of seat.old) (view_of seat.new) f) }
    ensures none { IfNone result (Idled (view_of seat.old) (view_of seat.new)) }
    ensures looks { IfNone result ((view_of seat.old).looks ≤ (view_of seat.new).looks) }
    ensures few_looks { IfNone result ((view_of seat.new).looks ≤ (view_of seat.old).looks + 1) }
    ensures found_looks { IfSome result (λ f. (view_of seat.new).looks ≡ 0) }
    ensures asks { asks_of hand.new ≡ raised (asks_of hand.old) 1 }
    ensures pushed { pushed_by hand.new ≡ pushed_by hand.old }
    ensures spare { spare_of hand.new ≡ spare_of hand.old }
    ensures same_bound { bound_of hand.new ≡ bound_of hand.old }
    ensures deques { KeepsDeques hand.old hand.new }
{
    let Look::Frame(frame) = hand.next() else {
        return None;
    };
    if table.claim(seat, frame) {
        return Some(frame);
    }
    None
}

/// Asks the hand. Where it gives no frame that can be claimed, it looks for one.
pub(crate) fn find(table: &FrameTable, seat: &mut FrameSeat, hand: &mut Hand) -> Option<u32>
    requires of_this_table { IsSeatOf table.now seat.old }
    requires has_frames { 1 ≤ frames_of table.now }
    requires bounded { bound_of hand.old ≡ frames_of table.now }
    requires idle { (view_of seat.old).run ≡ None }
    requires looks { (view_of seat.old).looks < 2 ^ 61 }
    ensures of_this_table { IsSeatOf table.now seat.new }
    ensures claimed { IfSome result (λ f. Claimed (known_of table.now) (view_of seat.old) (view_of seat.new) f) }
    ensures none { IfNone result (Idled (view_of seat.old) (view_of seat.new)) }
    ensures looks { IfNone result ((view_of seat.old).looks + 64 ≤ (view_of seat.new).looks) }
    ensures few_looks { IfNone result ((view_of seat.new).looks ≤ (view_of seat.old).looks + 65) }
    ensures found_looks { IfSome result (λ f. (view_of seat.new).looks ≡ 0) }
    ensures asks { asks_of hand.new ≡ raised (asks_of hand.old) 1 }
    ensures pushed { pushed_by hand.new ≡ pushed_by hand.old }
    ensures spare { spare_of hand.new ≡ spare_of hand.old }
    ensures same_bound { bound_of hand.new ≡ bound_of hand.old }
    ensures deques { KeepsDeques hand.old hand.new }
{
    if let Some(frame) = ask(table, seat, hand) {
        return Some(frame);
    }
    search(table, seat)
}
