//! A worker that finds frames and runs them.
ghost use Rattle.std.specs.Prelude.{◌≡◌, ◌+◌, ◌*◌, ◌<◌, ◌≤◌, ◌^◌, ℕ, length};
ghost use Rattle.os_io.specs.Counts.{raised};
ghost use Rattle.flow_core_laws.specs.Plans.{plan_meaning};
ghost use Rattle.flow_core_laws.specs.Serves.{Serves};
ghost use Rattle.frame_table.specs.Tokens.{view_of, known_of};
ghost use Rattle.steal_pool.specs.Hands.{pushed_by, asks_of, KeepsDeques};
ghost use Rattle.task_workers_worker.specs.Ready.{frames_of, looks_of, MayWork};
ghost use Rattle.task_workers_worker.specs.Turns.{to_do};
ghost use Rattle.task_workers_worker.specs.Worked.{Worked};

use crate::finding::find;
use crate::log::WorkLog;
use crate::running::run_claimed;
use flow_core_laws::Bodies;
use frame_table::{FrameSeat, FrameTable};
use steal_pool::Hand;
use task_workers_round::Gate;

/// How many counted looks in a row it takes at least for a worker to leave.
const LEAST_LOOKS: u64 = 65_536;

// Asks the hand once, looks for a frame where it has none, and runs what was found.
fn turn<B: Bodies, G: Gate>(
    table: &FrameTable,
    seat: &mut FrameSeat,
    hand: &mut Hand,
    bodies: &B,
    scratch: &mut B::Scratch,
    log: &mut WorkLog,
    gate: &G,
)
    requires has_frames { 1 ≤ frames_of table.now }
    requires meant { (known_of table.now).meaning ≡ plan_meaning (known_of table.now).plan (B.outcome bodies.now) }
    requires serves { Serves (known_of table.now).plan (B.outcome bodies.now) (B.takes bodies.now) }
    requires fits { B.fits bodies.now scratch.old }
    requires may_work { MayWork table.now seat.old hand.old log.old }
    requires looks { (view_of seat.old).looks < 2 ^ 61 }
    ensures fits { B.fits bodies.now scratch.new }
    ensures may_work { MayWork table.now seat.new hand.new log.new }
    ensures worked { Worked (frames_of table.now) (view_of seat.old) (view_of seat.new) (pushed_by hand.old)
        (pushed_by hand.new) log.old.frames.items log.new.frames.items }
    ensures worker { log.new.worker ≡ log.old.worker }
    ensures asks { asks_of hand.new ≡ raised (asks_of hand.old) 1 }
    ensures deques { KeepsDeques hand.old hand.new }
    ensures few_looks { (view_of seat.new).looks ≤ (view_of seat.old).looks + 65 }
    ensures gets_on { (most : ℕ) → (view_of seat.old).looks < most → to_do table.now most seat.new < to_do table.now most seat.old }
{
    let Some(frame) = find(table, seat, hand) else {
        return;
    };
    run_claimed(table, seat, frame, hand, bodies, scratch, log, gate);
}

/// Runs frames of the hand, and frames that it finds by looks, until enough looks in a row have counted: four times as many as there are
/// frames, and at least 65,536. Where there are no frames it does nothing.
pub fn work<B: Bodies, G: Gate>(
    table: &FrameTable,
    mut seat: FrameSeat,
    hand: &mut Hand,
    bodies: &B,
    scratch: &mut B::Scratch,
    log: &mut WorkLog,
    gate: &G,
) -> FrameSeat
    requires meant { (known_of table.now).meaning ≡ plan_meaning (known_of table.now).plan (B.outcome bodies.now) }
    requires serves { Serves (known_of table.now).plan (B.outcome bodies.now) (B.takes bodies.now) }
    requires fits { B.fits bodies.now scratch.old }
    requires may_work { MayWork table.now seat hand.old log.old }
    ensures fits { B.fits bodies.now scratch.new }
    ensures may_work { MayWork table.now result hand.new log.new }
    ensures worked { Worked (frames_of table.now) (view_of seat) (view_of result) (pushed_by hand.old)
        (pushed_by hand.new) log.old.frames.items log.new.frames.items }
    ensures worker { log.new.worker ≡ log.old.worker }
    ensures looks { 1 ≤ frames_of table.now → looks_of table.now ≤ (view_of result).looks }
    ensures asks { (times : ℕ) × (raised (asks_of hand.old) times ≤ asks_of hand.new)
        × ((view_of seat).looks ≡ 0 → (view_of result).looks ≤ 65 * times) }
    ensures deques { KeepsDeques hand.old hand.new }
{
    let frames = table.plan().frames.len() as u64;
    if frames == 0 {
        return seat;
    }
    let most = (4 * frames).max(LEAST_LOOKS);
    while seat.looks() < most {
        turn(table, &mut seat, hand, bodies, scratch, log, gate);
    }
    seat
}
