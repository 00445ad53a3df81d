ghost use Rattle.std.specs.Prelude.{◌≡◌, ◌<◌, ◌≤◌, ◌+◌, ◌/◌, max, OnOk, IfOk, All, length, sum_by, count_by, is_none, drop};
ghost use Rattle.flow_core_laws.specs.Limits.{activations_limit, positions_limit, workers_limit};
ghost use Rattle.flow_core_laws.specs.Outcome.{State};
ghost use Rattle.flow_core_laws.specs.Plans.{plan_meaning};
ghost use Rattle.flow_core_laws.specs.IsSound.{IsSound};
ghost use Rattle.flow_core_laws.specs.Serves.{Serves};
ghost use Rattle.flow_core.specs.Waits.{OpensMore};
ghost use Rattle.flow_core.specs.Board.{IsRun};
ghost use Rattle.task_workers_round.specs.Results.{AreResults, room_of};

use flow_core::{Board, Bodies, Plan, TaskEnd};
use os_io::Memory;
use std::thread::Threads;
use task_workers_round::{Gate, Worker, outputs_of, run_by};

/// How many frames are worth a thread, however short they are.
const FRAMES_A_THREAD: usize = 512;

/// How many threads a run may start for fewer frames than that, since frames may be long ones.
const THREADS_ON_TRIAL: usize = 256;

/// How many of the workers a round of `frames` frames gets: those that the frames are worth, and of the
/// others one for each frame, as long as there are threads left to try.
fn workers_for(frames: usize, workers: usize, on_trial: &mut usize) -> usize
    requires { (1 ≤ frames) × (1 ≤ workers) }
    ensures some { (1 ≤ result) × (result ≤ workers) }
    ensures worth { result ≤ frames }
    ensures few { result + on_trial.new ≤ max 1 (frames / FRAMES_A_THREAD) + on_trial.old }
{
    let sure = (frames / FRAMES_A_THREAD).clamp(1, workers);
    let tried = (frames.min(workers) - sure).min(*on_trial);
    *on_trial -= tried;
    sure + tried
}

/// Delivers what the frames that were opened from a turn on came to, in their order.
fn deliver(
    board: &mut Board,
    plan: &Plan,
    turn: usize,
    ends: &[TaskEnd],
    outputs: &[i32],
) -> Result<(), Memory>
    requires sound { IsSound plan.now }
    requires come_to { (meaning : State) × IsRun plan.now meaning board.old turn
        × AreResults plan.now meaning (drop turn board.old.waits.opened.items) ends.now outputs.now }
    requires end_each { turn + length ends.now ≡ length board.old.waits.opened.items }
    requires room { length outputs.now ≡ room_of plan.now (drop turn board.old.waits.opened.items) }
    ensures runs { OnOk result ((meaning : State) → IsRun plan.now meaning board.old turn
        → AreResults plan.now meaning (drop turn board.old.waits.opened.items) ends.now outputs.now
        → IsRun plan.now meaning board.new (turn + length ends.now)) }
    ensures opens { OnOk result (OpensMore board.old.waits board.new.waits) }
    ensures fewer { OnOk result (count_by is_none board.new.ends.items + length ends.now
        ≤ count_by is_none board.old.ends.items) }
{
    let mut first = 0;
    for (k, end) in ends.iter().enumerate() {
        let frame = board.waits.opened[turn + k];
        let next = first + plan.frame(frame).outputs as usize;
        board.take(plan, frame, *end, &outputs[first..next])?;
        first = next;
    }
    Ok(())
}

/// The frames that were opened from a turn on.
fn opened_from(board: &Board, turn: usize) -> &[u32]
    requires { turn ≤ length board.now.waits.opened.items }
    ensures { result.now ≡ drop turn board.now.waits.opened.items }
{
    &board.waits.opened[turn..]
}

/// Runs the frames that were opened from a turn on. `workers_for` says how many of the workers share them.
fn run_opened<R: Threads + Sync, B: Bodies<Scratch = S>, G: Gate, S: Send + Drop>(
    rt: &R,
    plan: &Plan,
    bodies: &B,
    board: &Board,
    gate: &G,
    turn: usize,
    ends: &mut [TaskEnd],
    outputs: &mut [i32],
    workers: &mut [Worker<S>],
    on_trial: &mut usize,
) -> Result<(), Memory>
    requires sound { IsSound plan.now }
    requires served { Serves plan.now (B.outcome bodies.now) (B.takes bodies.now) }
    requires begins { IsRun plan.now (plan_meaning plan.now (B.outcome bodies.now)) board.now turn }
    requires some_open { turn < length board.now.waits.opened.items }
    requires end_each { turn + length ends.old ≡ length board.now.waits.opened.items }
    requires room { length outputs.old ≡ room_of plan.now (drop turn board.now.waits.opened.items) }
    requires few { room_of plan.now (drop turn board.now.waits.opened.items) ≤ positions_limit }
    requires frames_are_few { length ends.old ≤ activations_limit }
    requires some { (0 < length workers.old) × (length workers.old ≤ workers_limit) }
    requires fitting { All (λ w. B.fits bodies.now w.scratch) workers.old }
    ensures results { OnOk result (AreResults plan.now (plan_meaning plan.now (B.outcome bodies.now))
        (drop turn board.now.waits.opened.items) ends.new outputs.new) }
    ensures fitting { All (λ w. B.fits bodies.now w.scratch) workers.new }
{
    let frames = opened_from(board, turn);
    let count = workers_for(frames.len(), workers.len(), on_trial);
    let (some, _) = workers.split_at_mut(count);
    run_by(rt, plan, bodies, board, gate, frames, ends, outputs, some)
}

/// Runs the frames that were opened from a turn on, and delivers what they came to. It gives the turn
/// of the next round.
fn run_round<R: Threads + Sync, B: Bodies<Scratch = S>, G: Gate, S: Send + Drop>(
    rt: &R,
    plan: &Plan,
    bodies: &B,
    gate: &G,
    board: &mut Board,
    turn: usize,
    ends: &mut [TaskEnd],
    outputs: &mut [i32],
    workers: &mut [Worker<S>],
    on_trial: &mut usize,
) -> Result<usize, Memory>
    requires sound { IsSound plan.now }
    requires served { Serves plan.now (B.outcome bodies.now) (B.takes bodies.now) }
    requires begins { IsRun plan.now (plan_meaning plan.now (B.outcome bodies.now)) board.old turn }
    requires some_open { turn < length board.old.waits.opened.items }
    requires room { (length ends.old ≡ length plan.now.frames)
        × (length outputs.old ≡ sum_by (λ p. p.outputs) plan.now.frames) }
    requires some { (0 < length workers.old) × (length workers.old ≤ workers_limit) }
    requires fitting { All (λ w. B.fits bodies.now w.scratch) workers.old }
    ensures runs { IfOk result (λ next.
        IsRun plan.now (plan_meaning plan.now (B.outcome bodies.now)) board.new next) }
    ensures next { IfOk result (λ next. next ≤ length board.new.waits.opened.items) }
    ensures fewer { OnOk result (count_by is_none board.new.ends.items
        < count_by is_none board.old.ends.items) }
    ensures fitting { All (λ w. B.fits bodies.now w.scratch) workers.new }
{
    let next = board.waits.opened.len();
    let room = outputs_of(plan, opened_from(board, turn));
    let (ends, _) = ends.split_at_mut(next - turn);
    let (outputs, _) = outputs.split_at_mut(room);
    run_opened(
        rt, plan, bodies, board, gate, turn, ends, outputs, workers, on_trial,
    )?;
    deliver(board, plan, turn, ends, outputs)?;
    Ok(next)
}

/// Runs rounds until none has a frame that may run.
pub(crate) fn run_rounds<R: Threads + Sync, B: Bodies<Scratch = S>, G: Gate, S: Send + Drop>(
    rt: &R,
    plan: &Plan,
    bodies: &B,
    gate: &G,
    board: &mut Board,
    ends: &mut [TaskEnd],
    outputs: &mut [i32],
    workers: &mut [Worker<S>],
) -> Result<(), Memory>
    requires sound { IsSound plan.now }
    requires served { Serves plan.now (B.outcome bodies.now) (B.takes bodies.now) }
    requires begins { IsRun plan.now (plan_meaning plan.now (B.outcome bodies.now)) board.old 0 }
    requires room { (length ends.old ≡ length plan.now.frames)
        × (length outputs.old ≡ sum_by (λ p. p.outputs) plan.now.frames) }
    requires some { (0 < length workers.old) × (length workers.old ≤ workers_limit) }
    requires fitting { All (λ w. B.fits bodies.now w.scratch) workers.old }
    ensures { OnOk result (IsRun plan.now (plan_meaning plan.now (B.outcome bodies.now))
        board.new (length board.new.waits.opened.items)) }
{
    let mut on_trial = THREADS_ON_TRIAL;
    let mut turn = 0;
    while turn < board.waits.opened.len() {
        turn = run_round(
            rt,
            plan,
            bodies,
            gate,
            board,
            turn,
            ends,
            outputs,
            workers,
            &mut on_trial,
        )?;
    }
    Ok(())
}
