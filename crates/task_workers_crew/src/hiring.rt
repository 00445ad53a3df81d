//! How a crew gets what it works with.
ghost use Rattle.std.specs.Prelude.{◌≡◌, ◌+◌, ◌≤◌, ◌<◌, [], All, IfOk, length};
ghost use Rattle.flow_core_laws.specs.Limits.{activations_limit, workers_limit};
ghost use Rattle.flow_core_laws.specs.IsSound.{IsSound};
ghost use Rattle.steal_pool.specs.Hands.{AreInRing};
ghost use Rattle.task_workers_crew.specs.Crew.{TakesFrom, IsEquipped};
ghost use Rattle.task_workers_crew.specs.Dealt.{AreDealt, AreNumbered, hands_of};
ghost use Rattle.task_workers_crew.specs.Dealing.{AreDealtBelow};

use crate::crew::Worker;
use flow_core_laws::{Bodies, Plan};
use os_io::Memory;
use std::alloc::Global;
use steal_pool::{Hand, Pool};
use task_workers_worker::WorkLog;

// The place in a ring behind another.
fn next_place(at: usize, places: usize) -> usize
    requires { at < places }
    ensures before { at + 1 < places → result ≡ at + 1 }
    ensures round { at + 1 ≡ places → result ≡ 0 }
{
    if at + 1 < places { at + 1 } else { 0 }
}

// Gives a frame to the hand whose turn it is, where it is Open at opening. It gives whose turn comes next.
fn deal_one(plan: &Plan, hands: &mut [Hand], frame: u32, turn: usize) -> usize
    requires exists { frame < length plan.now.frames }
    requires so_far { AreDealtBelow plan.now frame turn hands.old }
    ensures same { length hands.new ≡ length hands.old }
    ensures one_more { AreDealtBelow plan.now (frame + 1) result hands.new }
{
    if plan.frame(frame).wait != 0 {
        return turn;
    }
    hands[turn].push(frame);
    next_place(turn, hands.len())
}

// Gives the frames that are Open at opening to the hands in turn.
fn spread(plan: &Plan, hands: &mut [Hand])
    requires few { length plan.now.frames ≤ activations_limit }
    requires none_yet { AreDealtBelow plan.now 0 0 hands.old }
    ensures same { length hands.new ≡ length hands.old }
    ensures room { All (λ h. TakesFrom plan.now (length plan.now.frames) h) hands.new }
    ensures dealt { AreDealt plan.now hands.new }
    ensures in_ring { AreInRing hands.new }
{
    let mut turn = 0;
    for frame in 0..plan.frames.len() as u32 {
        turn = deal_one(plan, hands, frame, turn);
    }
}

// A hand for each worker, with the frames that are Open at opening.
fn dealt(alloc: Global, plan: &Plan, workers: u32) -> Result<Vec<Hand>, Memory>
    requires few { length plan.now.frames ≤ activations_limit }
    requires workers { (1 ≤ workers) × (workers ≤ workers_limit) }
    ensures all { IfOk result (λ v. length v.items ≡ workers) }
    ensures room { IfOk result (λ v. All (λ h. TakesFrom plan.now (length plan.now.frames) h) v.items) }
    ensures dealt { IfOk result (λ v. AreDealt plan.now v.items) }
    ensures in_ring { IfOk result (λ v. AreInRing v.items) }
{
    let frames = plan.frames.len() as u32;
    let mut hands = Pool::new(alloc, workers, frames, frames)?;
    spread(plan, hands.as_mut_slice());
    Ok(hands)
}

// What a worker of this number works with.
fn equip<B: Bodies>(
    alloc: Global,
    plan: &Plan,
    bodies: &B,
    number: u32,
    hand: Hand,
) -> Result<Worker<B::Scratch>, Memory>
    requires few { length plan.now.frames ≤ activations_limit }
    requires hand { TakesFrom plan.now (length plan.now.frames) hand }
    ensures equipped { IfOk result (λ w. IsEquipped plan.now w.hand w.log) }
    ensures hand { IfOk result (λ w. w.hand ≡ hand) }
    ensures number { IfOk result (λ w. w.log.worker ≡ number) }
    ensures unlogged { IfOk result (λ w. w.log.frames.items ≡ []) }
    ensures fits { IfOk result (λ w. B.fits bodies.now w.scratch) }
{
    let scratch = bodies.scratch(alloc)?;
    let log = WorkLog::new(alloc, plan, number)?;
    Ok(Worker {
        seat: None,
        hand,
        scratch,
        log,
    })
}

/// As many workers as `workers` says, numbered from 0 on, each with what it works with but a seat. Their hands have the frames that are Open at
/// opening, given to them in turn, and steal from one another.
pub fn hire<B: Bodies>(
    alloc: Global,
    plan: &Plan,
    bodies: &B,
    workers: u32,
) -> Result<Vec<Worker<B::Scratch>>, Memory>
    requires sound { IsSound plan.now }
    requires workers { (1 ≤ workers) × (workers ≤ workers_limit) }
    ensures all { IfOk result (λ crew. length crew.items ≡ workers) }
    ensures equipped { IfOk result (λ crew. All (λ w. IsEquipped plan.now w.hand w.log) crew.items) }
    ensures fits { IfOk result (λ crew. All (λ w. B.fits bodies.now w.scratch) crew.items) }
    ensures unlogged { IfOk result (λ crew. All (λ w. w.log.frames.items ≡ []) crew.items) }
    ensures numbered { IfOk result (λ crew. AreNumbered crew.items) }
    ensures dealt { IfOk result (λ crew. AreDealt plan.now (hands_of crew.items)) }
    ensures in_ring { IfOk result (λ crew. AreInRing (hands_of crew.items)) }
{
    let mut hands = dealt(alloc, plan, workers)?;
    let mut crew = Vec::new(alloc);
    for number in 0..workers {
        let hand = hands.remove(0);
        let worker = equip(alloc, plan, bodies, number, hand)?;
        crew.push(worker)?;
    }
    Ok(crew)
}
