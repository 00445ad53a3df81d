ghost use Rattle.std.specs.Prelude.{◌≡◌, ◌<◌, ◌≤◌, All, OnOk, length};
ghost use denote.Param.Send.{IsSync, IsSend};
ghost use Rattle.flow_core_laws.specs.Limits.{activations_limit, positions_limit, workers_limit};
ghost use Rattle.flow_core_laws.specs.Plans.{plan_meaning};
ghost use Rattle.flow_core_laws.specs.IsSound.{IsSound};
ghost use Rattle.flow_core_laws.specs.Serves.{Serves};
ghost use Rattle.flow_core.specs.Counted.{IsCounted};
ghost use Rattle.flow_core.specs.Shows.{Shows};
ghost use Rattle.task_workers_round.specs.Results.{AreResults, MayRun, room_of};
ghost use Rattle.task_workers_round.specs.Parts.{IsShared, IsPartOfRound};

use crate::gate::Gate;
use crate::results::outputs_of;
use crate::worker::{Worker, run_frames};
use flow_core::{Board, Bodies, Plan, TaskEnd};
use os_io::Memory;
use std::thread::{Threads, join_mut};

/// How many workers at most get all their threads from one of them.
const STARTED_BY_ONE: usize = 8;

/// Runs frames of a round by the workers of a list, 1 to 64, each in a thread: a part of the frames by each part
/// of the workers. Where no thread can be made, the caller does the work.
///
/// The ends stand in the order of the frames, and so do the outputs, those of one frame behind those of
/// another; what stands for the outputs of a frame that isn't done means nothing. The board is only
/// read. The gate is called with the number of the worker and the frame before each frame runs. An error
/// is want of memory; frames may have run then.
pub fn run_by<R: Threads + Sync, B: Bodies<Scratch = S>, G: Gate, S: Send + Drop>(
    rt: &R,
    plan: &Plan,
    bodies: &B,
    board: &Board,
    gate: &G,
    frames: &[u32],
    ends: &mut [TaskEnd],
    outputs: &mut [i32],
    workers: &mut [Worker<S>],
) -> Result<(), Memory>
    requires sound { IsSound plan.now }
    requires served { Serves plan.now (B.outcome bodies.now) (B.takes bodies.now) }
    requires counted { IsCounted plan.now board.now.cells.items board.now.waits }
    requires shows { Shows plan.now (plan_meaning plan.now (B.outcome bodies.now))
        board.now.cells.items board.now.ends.items }
    requires may_run { All (MayRun plan.now board.now.waits) frames.now }
    requires end_each { length ends.old ≡ length frames.now }
    requires room { length outputs.old ≡ room_of plan.now frames.now }
    requires few { room_of plan.now frames.now ≤ positions_limit }
    requires frames_are_few { length frames.now ≤ activations_limit }
    requires some { (0 < length workers.old) × (length workers.old ≤ workers_limit) }
    requires fitting { All (λ w. B.fits bodies.now w.scratch) workers.old }
    ensures results { OnOk result (AreResults plan.now (plan_meaning plan.now (B.outcome bodies.now))
        frames.now ends.new outputs.new) }
    ensures fitting { All (λ w. B.fits bodies.now w.scratch) workers.new }
{
    run_part(
        rt, plan, bodies, board, gate, frames, ends, outputs, workers,
    )
}

/// Runs a part of a round: by one worker in this thread, by more in two parts, of which a new thread runs the first.
#[cycle(halves)]
fn run_part<R: Threads + Sync, B: Bodies<Scratch = S>, G: Gate, S: Send + Drop>(
    rt: &R,
    plan: &Plan,
    bodies: &B,
    board: &Board,
    gate: &G,
    frames: &[u32],
    ends: &mut [TaskEnd],
    outputs: &mut [i32],
    workers: &mut [Worker<S>],
) -> Result<(), Memory>
    requires shared { IsShared plan.now (B.outcome bodies.now) (B.takes bodies.now) board.now }
    requires part { IsPartOfRound plan.now board.now.waits (λ w. B.fits bodies.now w.scratch)
        frames.now ends.old outputs.old workers.old }
    ensures results { OnOk result (AreResults plan.now (plan_meaning plan.now (B.outcome bodies.now))
        frames.now ends.new outputs.new) }
    ensures fitting { All (λ w. B.fits bodies.now w.scratch) workers.new }
{
    if workers.len() == 1 {
        return run_frames(
            plan,
            bodies,
            board,
            gate,
            frames,
            ends,
            outputs,
            &mut workers[0],
        );
    }
    let low = sent_off(workers.len());
    let (front, back) = frames.split_at(share_of(frames.len(), low, workers.len()));
    let (front_ends, back_ends) = ends.split_at_mut(front.len());
    let (front_outputs, back_outputs) = outputs.split_at_mut(outputs_of(plan, front));
    let (first, second) = workers.split_at_mut(low);
    both_halves(
        rt,
        plan,
        bodies,
        board,
        gate,
        front,
        front_ends,
        front_outputs,
        first,
        back,
        back_ends,
        back_outputs,
        second,
    )
}

/// How many of the workers a new thread takes along. Where they are few, it is one of them, so that this thread starts the threads of
/// all others and none of them waits until another one has begun; half of many, since it takes a thread long to start many.
fn sent_off(workers: usize) -> usize
    requires { 2 ≤ workers }
    ensures some { 1 ≤ result }
    ensures not_all { result < workers }
{
    if workers <= STARTED_BY_ONE {
        1
    } else {
        workers / 2
    }
}

/// How many of the frames `some` of the `workers` workers run together.
fn share_of(frames: usize, some: usize, workers: usize) -> usize
    requires frames { frames ≤ activations_limit }
    requires workers { (some ≤ workers) × (0 < workers) × (workers ≤ workers_limit) }
    ensures { result ≤ frames }
{
    frames * some / workers
}

/// Runs two parts of a round at a time.
#[cycle(halves)]
fn both_halves<R: Threads + Sync, B: Bodies<Scratch = S>, G: Gate, S: Send + Drop>(
    rt: &R,
    plan: &Plan,
    bodies: &B,
    board: &Board,
    gate: &G,
    front: &[u32],
    front_ends: &mut [TaskEnd],
    front_outputs: &mut [i32],
    first: &mut [Worker<S>],
    back: &[u32],
    back_ends: &mut [TaskEnd],
    back_outputs: &mut [i32],
    second: &mut [Worker<S>],
) -> Result<(), Memory>
    requires shared { IsShared plan.now (B.outcome bodies.now) (B.takes bodies.now) board.now }
    requires front { IsPartOfRound plan.now board.now.waits (λ w. B.fits bodies.now w.scratch)
        front.now front_ends.old front_outputs.old first.old }
    requires back { IsPartOfRound plan.now board.now.waits (λ w. B.fits bodies.now w.scratch)
        back.now back_ends.old back_outputs.old second.old }
    ensures results { OnOk result (AreResults plan.now (plan_meaning plan.now (B.outcome bodies.now))
        front.now front_ends.new front_outputs.new
        × AreResults plan.now (plan_meaning plan.now (B.outcome bodies.now))
        back.now back_ends.new back_outputs.new) }
    ensures fitting { All (λ w. B.fits bodies.now w.scratch) first.new
        × All (λ w. B.fits bodies.now w.scratch) second.new }
{
    let mut one = || -> Result<(), Memory>
        requires { IsSync R.row × IsSync B.row × IsSync G.row × IsSend S.row
            × IsShared plan.now (B.outcome bodies.now) (B.takes bodies.now) board.now
            × IsPartOfRound plan.now board.now.waits (λ w. B.fits bodies.now w.scratch)
            front.now front_ends.now front_outputs.now first.now }
        ensures { OnOk result (AreResults plan.entry.now (plan_meaning plan.entry.now (B.outcome bodies.entry.now))
            front.entry.now front_ends.exit.now front_outputs.exit.now)
            × All (λ w. B.fits bodies.entry.now w.scratch) first.exit.now }
    {
        run_part(
            rt,
            plan,
            bodies,
            board,
            gate,
            front,
            front_ends,
            front_outputs,
            first,
        )
    };
    let mut other = || -> Result<(), Memory>
        requires { IsSync R.row × IsSync B.row × IsSync G.row × IsSend S.row
            × IsShared plan.now (B.outcome bodies.now) (B.takes bodies.now) board.now
            × IsPartOfRound plan.now board.now.waits (λ w. B.fits bodies.now w.scratch)
            back.now back_ends.now back_outputs.now second.now }
        ensures { OnOk result (AreResults plan.entry.now (plan_meaning plan.entry.now (B.outcome bodies.entry.now))
            back.entry.now back_ends.exit.now back_outputs.exit.now)
            × All (λ w. B.fits bodies.entry.now w.scratch) second.exit.now }
    {
        run_part(
            rt,
            plan,
            bodies,
            board,
            gate,
            back,
            back_ends,
            back_outputs,
            second,
        )
    };
    let (a, b) = join_mut(rt, &mut one, &mut other);
    a.and(b)
}
