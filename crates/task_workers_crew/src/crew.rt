//! Workers in threads of their own.
ghost use Rattle.std.specs.Prelude.{◌≡◌, ◌≤◌, ◌<◌, ◌++◌, ℕ, List, All, length, slice_index_or};
ghost use Rattle.flow_core_laws.specs.Plans.{plan_meaning};
ghost use Rattle.flow_core_laws.specs.Serves.{Serves};
ghost use Rattle.frame_table.specs.Tokens.{known_of, view_of};
ghost use Rattle.steal_pool.specs.Hands.{KeepsDeques};
ghost use Rattle.task_workers_worker.specs.Ready.{MayWork, frames_of, looks_of};
ghost use Rattle.task_workers_crew.specs.Crew.{IsSeated, HasLooked, HasLogged, ran_of};

use flow_core_laws::Bodies;
use frame_table::{FrameSeat, FrameTable};
use std::thread::{Threads, for_each_mut};
use steal_pool::Hand;
use task_workers_round::Gate;
use task_workers_worker::{WorkLog, work};

/// What a worker works with.
#[derive(Drop)]
pub struct Worker<S> {
    /// None before it has a seat, and while it works.
    pub seat: Option<FrameSeat>,
    pub hand: Hand,
    /// What the bodies work on.
    pub scratch: S,
    pub log: WorkLog,
}

// Takes a worker's seat.
#[tactic(auto, using(crate::proofs::Joining::has_seat))]
pub(crate) fn take_back<S>(table: &FrameTable, worker: &mut Worker<S>) -> FrameSeat
    requires seated { IsSeated table.now 1 worker.old.seat worker.old.hand worker.old.log }
    ensures may_work { MayWork table.now result worker.new.hand worker.new.log }
    ensures one_share { (view_of result).shares ≡ 1 }
    ensures ran { (view_of result).ran ≡ ran_of worker.old.seat }
    ensures scratch { worker.new.scratch ≡ worker.old.scratch }
    ensures hand { worker.new.hand ≡ worker.old.hand }
    ensures log { worker.new.log ≡ worker.old.log }
{
    let Some(seat) = worker.seat.take() else {
        unreachable!()
    };
    seat
}

// A worker works on a seat.
pub(crate) fn work_on<S: Send + Drop, B: Bodies<Scratch = S>, G: Gate>(
    table: &FrameTable,
    seat: FrameSeat,
    bodies: &B,
    gate: &G,
    worker: &mut Worker<S>,
) -> FrameSeat
    requires meant { (known_of table.now).meaning
        ≡ plan_meaning (known_of table.now).plan (B.outcome bodies.now) }
    requires serves { Serves (known_of table.now).plan (B.outcome bodies.now) (B.takes bodies.now) }
    requires may_work { MayWork table.now seat worker.old.hand worker.old.log }
    requires fits { B.fits bodies.now worker.old.scratch }
    ensures may_work { MayWork table.now result worker.new.hand worker.new.log }
    ensures shares { (view_of result).shares ≡ (view_of seat).shares }
    ensures logged { (newly : List ℕ) × ((view_of result).ran ≡ (view_of seat).ran ++ newly)
        × (worker.new.log.frames.items ≡ worker.old.log.frames.items ++ newly) }
    ensures fits { B.fits bodies.now worker.new.scratch }
    ensures looks { 1 ≤ frames_of table.now → looks_of table.now ≤ (view_of result).looks }
    ensures deques { KeepsDeques worker.old.hand worker.new.hand }
    ensures number { worker.new.log.worker ≡ worker.old.log.worker }
{
    work(
        table,
        seat,
        &mut worker.hand,
        bodies,
        &mut worker.scratch,
        &mut worker.log,
        gate,
    )
}

// A worker works on its seat.
fn work_one<S: Send + Drop, B: Bodies<Scratch = S>, G: Gate>(
    table: &FrameTable,
    bodies: &B,
    gate: &G,
    worker: &mut Worker<S>,
)
    requires meant { (known_of table.now).meaning
        ≡ plan_meaning (known_of table.now).plan (B.outcome bodies.now) }
    requires serves { Serves (known_of table.now).plan (B.outcome bodies.now) (B.takes bodies.now) }
    requires seated { IsSeated table.now 1 worker.old.seat worker.old.hand worker.old.log }
    requires fits { B.fits bodies.now worker.old.scratch }
    ensures seated { IsSeated table.now 1 worker.new.seat worker.new.hand worker.new.log }
    ensures logged { HasLogged worker.old.seat worker.old.log → HasLogged worker.new.seat worker.new.log }
    ensures fits { B.fits bodies.now worker.new.scratch }
    ensures looked { HasLooked table.now worker.new.seat }
    ensures deques { KeepsDeques worker.old.hand worker.new.hand }
    ensures number { worker.new.log.worker ≡ worker.old.log.worker }
{
    let seat = take_back(table, worker);
    let seat = work_on(table, seat, bodies, gate, worker);
    worker.seat = Some(seat);
}

/// Each worker works on its seat in a thread of its own. One worker works in the caller's.
pub(crate) fn work_all<S: Send + Drop, B: Bodies<Scratch = S>, G: Gate, R: Threads + Sync>(
    rt: &R,
    table: &FrameTable,
    bodies: &B,
    gate: &G,
    crew: &mut [Worker<S>],
)
    requires some { 0 < length crew.old }
    requires meant { (known_of table.now).meaning
        ≡ plan_meaning (known_of table.now).plan (B.outcome bodies.now) }
    requires serves { Serves (known_of table.now).plan (B.outcome bodies.now) (B.takes bodies.now) }
    requires seated { All (λ w. IsSeated table.now 1 w.seat w.hand w.log) crew.old }
    requires fits { All (λ w. B.fits bodies.now w.scratch) crew.old }
    ensures same { length crew.new ≡ length crew.old }
    ensures seated { (i : ℕ) (d : Worker S) → i < length crew.old → IsSeated table.now 1
        (slice_index_or crew.new i d).seat (slice_index_or crew.new i d).hand (slice_index_or crew.new i d).log }
    ensures logged { (i : ℕ) (d : Worker S) → i < length crew.old →
        HasLogged (slice_index_or crew.old i d).seat (slice_index_or crew.old i d).log
        → HasLogged (slice_index_or crew.new i d).seat (slice_index_or crew.new i d).log }
    ensures fits { (i : ℕ) (d : Worker S) → i < length crew.old →
        B.fits bodies.now (slice_index_or crew.new i d).scratch }
    ensures looked { (i : ℕ) (d : Worker S) → i < length crew.old → HasLooked table.now (slice_index_or crew.new i d).seat }
    ensures deques { (i : ℕ) (d : Worker S) → i < length crew.old →
        KeepsDeques (slice_index_or crew.old i d).hand (slice_index_or crew.new i d).hand }
    ensures numbers { (i : ℕ) (d : Worker S) → i < length crew.old →
        (slice_index_or crew.new i d).log.worker ≡ (slice_index_or crew.old i d).log.worker }
{
    let count = crew.len();
    for_each_mut(
        rt,
        crew,
        count,
        &|_at: usize, worker: &mut Worker<S>|
            requires { ((known_of table.now).meaning ≡ plan_meaning (known_of table.now).plan (B.outcome bodies.now))
                × Serves (known_of table.now).plan (B.outcome bodies.now) (B.takes bodies.now)
                × IsSeated table.now 1 worker.old.seat worker.old.hand worker.old.log
                × B.fits bodies.now worker.old.scratch }
            ensures { IsSeated table.entry.now 1 worker.new.seat worker.new.hand worker.new.log
                × (HasLogged worker.old.seat worker.old.log → HasLogged worker.new.seat worker.new.log)
                × B.fits bodies.entry.now worker.new.scratch
                × HasLooked table.entry.now worker.new.seat
                × KeepsDeques worker.old.hand worker.new.hand
                × (worker.new.log.worker ≡ worker.old.log.worker) }
        { work_one(table, bodies, gate, worker) },
    );
}
