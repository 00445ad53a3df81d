//! A crew at work on a table, until it is closed.
ghost use Rattle.std.specs.Prelude.{◌≡◌, ◌+◌, ◌≤◌, ◌<◌, ℕ, [], None, All, is_some, length, slice_index_or};
ghost use Rattle.flow_core_laws.specs.Plans.{plan_meaning};
ghost use Rattle.flow_core_laws.specs.Serves.{Serves};
ghost use Rattle.flow_core_concurrent.specs.Counted.{one};
ghost use Rattle.flow_core_concurrent.specs.States.{times};
ghost use Rattle.flow_core_concurrent.specs.Steps.{end_of};
ghost use Rattle.frame_table.specs.Left.{numbers_of};
ghost use Rattle.frame_table.specs.Seats.{IsWhole};
ghost use Rattle.frame_table.specs.Tokens.{IsFresh, IsSeatOf, known_of, view_of};
ghost use Rattle.task_workers_worker.specs.Ready.{MayWork, frames_of};
ghost use Rattle.steal_pool.specs.Hands.{KeepsDeques};
ghost use Rattle.task_workers_crew.specs.Crew.{IsEquipped, IsSeated, HasLooked, HasLogged, ran_of, logs_of, lists_of, scratches_of, times_in};
ghost use Rattle.task_workers_crew.specs.Dealt.{hands_of, worker_numbers};

use crate::crew::{Worker, take_back, work_all, work_on};
use flow_core_laws::Bodies;
use frame_table::{Closed, FrameSeat, FrameTable};
use os_io::{List, Room};
use std::thread::Threads;
use task_workers_round::Gate;
use task_workers_worker::WorkLog;

// Gives a worker a seat.
fn take_seat<S>(table: &FrameTable, worker: &mut Worker<S>, seat: FrameSeat)
    requires fresh { IsFresh table.now seat }
    requires equipped { IsEquipped (known_of table.now).plan worker.old.hand worker.old.log }
    ensures seated { IsSeated table.now 1 worker.new.seat worker.new.hand worker.new.log }
    ensures equipped { IsEquipped (known_of table.now).plan worker.new.hand worker.new.log }
    ensures scratch { worker.new.scratch ≡ worker.old.scratch }
    ensures hand { worker.new.hand ≡ worker.old.hand }
    ensures log { worker.new.log ≡ worker.old.log }
    ensures ran { ran_of worker.new.seat ≡ [] }
{
    worker.seat = Some(seat);
}

// Gives each worker a seat.
fn take_seats<B: Bodies>(
    table: &FrameTable,
    bodies: &B,
    crew: &mut [Worker<B::Scratch>],
    mut seats: Vec<FrameSeat>,
)
    requires all { length seats.items ≡ length crew.old }
    requires fresh { All (λ s. IsFresh table.now s) seats.items }
    requires equipped { All (λ w. IsEquipped (known_of table.now).plan w.hand w.log) crew.old }
    requires fits { All (λ w. B.fits bodies.now w.scratch) crew.old }
    ensures same { length crew.new ≡ length crew.old }
    ensures seated { All (λ w. IsSeated table.now 1 w.seat w.hand w.log) crew.new }
    ensures fits { All (λ w. B.fits bodies.now w.scratch) crew.new }
    ensures hands { hands_of crew.new ≡ hands_of crew.old }
    ensures logs { logs_of crew.new ≡ logs_of crew.old }
    ensures ran { All (λ w. ran_of w.seat ≡ []) crew.new }
{
    for k in 0..crew.len() {
        let Some(seat) = seats.pop() else {
            unreachable!()
        };
        take_seat(table, &mut crew[k], seat);
    }
}

/// Gives each worker of a crew a seat. Its hand, its number and its log stay.
pub fn seat_crew<B: Bodies>(
    table: &FrameTable,
    bodies: &B,
    mut crew: Vec<Worker<B::Scratch>>,
    seats: Vec<FrameSeat>,
) -> Vec<Worker<B::Scratch>>
    requires all { length seats.items ≡ length crew.items }
    requires fresh { All (λ s. IsFresh table.now s) seats.items }
    requires equipped { All (λ w. IsEquipped (known_of table.now).plan w.hand w.log) crew.items }
    requires fits { All (λ w. B.fits bodies.now w.scratch) crew.items }
    ensures same { length result.items ≡ length crew.items }
    ensures seated { All (λ w. IsSeated table.now 1 w.seat w.hand w.log) result.items }
    ensures fits { All (λ w. B.fits bodies.now w.scratch) result.items }
    ensures hands { hands_of result.items ≡ hands_of crew.items }
    ensures numbers { worker_numbers result.items ≡ worker_numbers crew.items }
    ensures logs { logs_of result.items ≡ logs_of crew.items }
    ensures ran { All (λ w. ran_of w.seat ≡ []) result.items }
{
    take_seats(table, bodies, crew.as_mut_slice(), seats);
    crew
}

/// Lets each worker of a crew work on its seat, in a thread of its own; one worker works in the caller's. Each keeps its
/// number, its hand the deques, and its log has what it ran.
pub fn work_crew<S: Send + Drop, B: Bodies<Scratch = S>, G: Gate, R: Threads + Sync>(
    rt: &R,
    table: &FrameTable,
    bodies: &B,
    gate: &G,
    mut crew: Vec<Worker<S>>,
) -> Vec<Worker<S>>
    requires some { 0 < length crew.items }
    requires meant { (known_of table.now).meaning
        ≡ plan_meaning (known_of table.now).plan (B.outcome bodies.now) }
    requires serves { Serves (known_of table.now).plan (B.outcome bodies.now) (B.takes bodies.now) }
    requires seated { All (λ w. IsSeated table.now 1 w.seat w.hand w.log) crew.items }
    requires fits { All (λ w. B.fits bodies.now w.scratch) crew.items }
    ensures same { length result.items ≡ length crew.items }
    ensures seated { All (λ w. IsSeated table.now 1 w.seat w.hand w.log) result.items }
    ensures fits { All (λ w. B.fits bodies.now w.scratch) result.items }
    ensures looked { All (λ w. HasLooked table.now w.seat) result.items }
    ensures logged { (i : ℕ) (d : Worker S) → i < length crew.items →
        HasLogged (slice_index_or crew.items i d).seat (slice_index_or crew.items i d).log
        → HasLogged (slice_index_or result.items i d).seat (slice_index_or result.items i d).log }
    ensures deques { (i : ℕ) (d : Worker S) → i < length crew.items →
        KeepsDeques (slice_index_or crew.items i d).hand (slice_index_or result.items i d).hand }
    ensures numbers { (i : ℕ) (d : Worker S) → i < length crew.items →
        (slice_index_or result.items i d).log.worker ≡ (slice_index_or crew.items i d).log.worker }
{
    work_all(rt, table, bodies, gate, crew.as_mut_slice());
    crew
}

// Takes the seats of a crew, and joins them to that of worker 0.
fn join_seats<S>(table: &FrameTable, crew: &mut [Worker<S>]) -> FrameSeat
    requires some { 0 < length crew.old }
    requires seated { All (λ w. IsSeated table.now 1 w.seat w.hand w.log) crew.old }
    requires logged { All (λ w. HasLogged w.seat w.log) crew.old }
    ensures same { length crew.new ≡ length crew.old }
    ensures may_work { (d : Worker S) → MayWork table.now result (slice_index_or crew.new 0 d).hand (slice_index_or crew.new 0 d).log }
    ensures shares { (view_of result).shares ≡ length crew.old }
    ensures ran { (f : ℕ) → times f (view_of result).ran ≡ times_in (lists_of crew.new) f }
    ensures scratches { scratches_of crew.new ≡ scratches_of crew.old }
{
    let mut seat = take_back(table, &mut crew[0]);
    for k in 1..crew.len() {
        let guest = take_back(table, &mut crew[k]);
        table.join(&mut seat, guest);
    }
    seat
}

// Joins the seats of a crew, and lets worker 0 go on with the last one.
fn work_last<S: Send + Drop, B: Bodies<Scratch = S>, G: Gate>(
    table: &FrameTable,
    bodies: &B,
    gate: &G,
    crew: &mut [Worker<S>],
) -> FrameSeat
    requires some { 0 < length crew.old }
    requires meant { (known_of table.now).meaning
        ≡ plan_meaning (known_of table.now).plan (B.outcome bodies.now) }
    requires serves { Serves (known_of table.now).plan (B.outcome bodies.now) (B.takes bodies.now) }
    requires seated { All (λ w. IsSeated table.now 1 w.seat w.hand w.log) crew.old }
    requires logged { All (λ w. HasLogged w.seat w.log) crew.old }
    requires fits { All (λ w. B.fits bodies.now w.scratch) crew.old }
    ensures same { length crew.new ≡ length crew.old }
    ensures of_this_table { IsSeatOf table.now result }
    ensures runs_nothing { (view_of result).run ≡ None }
    ensures shares { (view_of result).shares ≡ length crew.old }
    ensures looks { frames_of table.now ≤ (view_of result).looks }
    ensures ran { (f : ℕ) → times f (view_of result).ran ≡ times_in (lists_of crew.new) f }
{
    let seat = join_seats(table, crew);
    work_on(table, seat, bodies, gate, &mut crew[0])
}

// What a worker logged.
fn list_of<S: Drop>(worker: Worker<S>) -> List<u32>
    ensures { result ≡ worker.log.frames.items }
{
    let Worker { log, .. } = worker;
    let WorkLog { frames, .. } = log;
    frames.into_list()
}

// What the workers of a crew logged, worker by worker.
fn gather_lists<S: Drop>(mut crew: Vec<Worker<S>>, mut lists: Room<List<u32>>) -> List<List<u32>>
    requires empty { lists.items ≡ [] }
    requires room { length crew.items ≤ lists.spare }
    ensures { result ≡ lists_of crew.items }
{
    while !crew.is_empty() {
        let worker = crew.remove(0);
        lists.push_spare(list_of(worker));
    }
    lists.into_list()
}

/// Runs the frames of a table by a crew, each worker on a seat of its own, and closes the table. Worker 0 works once more
/// on the seat that took in the others, with its own log. Beside the closed table it gives the frames that each worker ran,
/// in its order, worker by worker. It takes no memory but the room of these lists.
pub fn run_logged<S: Send + Drop, B: Bodies<Scratch = S>, G: Gate, R: Threads + Sync>(
    rt: &R,
    table: FrameTable,
    seats: Vec<FrameSeat>,
    bodies: &B,
    gate: &G,
    crew: Vec<Worker<S>>,
    lists: Room<List<u32>>,
) -> (Closed, List<List<u32>>)
    requires some { 0 < length crew.items }
    requires all { (length seats.items ≡ length crew.items) × ((known_of table).seats ≡ length crew.items) }
    requires meant { (known_of table).meaning ≡ plan_meaning (known_of table).plan (B.outcome bodies.now) }
    requires serves { Serves (known_of table).plan (B.outcome bodies.now) (B.takes bodies.now) }
    requires fresh { All (λ s. IsFresh table s) seats.items }
    requires equipped { All (λ w. IsEquipped (known_of table).plan w.hand w.log) crew.items }
    requires unlogged { All (λ w. w.log.frames.items ≡ []) crew.items }
    requires fits { All (λ w. B.fits bodies.now w.scratch) crew.items }
    requires room { (lists.items ≡ []) × (length crew.items ≤ lists.spare) }
    ensures frames { result.0.frames ≡ frames_of table.entry }
    ensures numbers { length (numbers_of result.0)
        ≡ frames_of table.entry + 1 + length (known_of table.entry).plan.filled }
    ensures whole { IsWhole (known_of table.entry) (numbers_of result.0) }
    ensures one_each { length result.1 ≡ length crew.items }
    ensures once { (f : ℕ) → times_in result.1 f ≡ one (is_some (end_of (known_of table.entry) f)) }
{
    let crew = seat_crew(&table, bodies, crew, seats);
    let mut crew = work_crew(rt, &table, bodies, gate, crew);
    let last = work_last(&table, bodies, gate, crew.as_mut_slice());
    let closed = table.close(last);
    (closed, gather_lists(crew, lists))
}
