//! Lists that workers left.
ghost use Rattle.std.specs.Prelude.{◌≤◌, IfOk};
ghost use Rattle.flow_core_laws.specs.IsSound.{IsSound};
ghost use Rattle.flow_core_laws.specs.Limits.{workers_limit};

use crate::plans::{activation, plan_of, replayed};
use flow_core::{Activation, Claim, Ends, Plan};
use lawful_layouts::Lasts;
use os_io::{List, Memory};
use std::alloc::Global;
use std::sync::atomic::{AtomicU32, Ordering};
use std::test::Fail;
use std::thread::Threads;
use task_workers::{Gate, Logged, NoGate, execute_logged};
use trace_replay::Replayed;

/// How activations stand to one another.
#[derive(Clone, Copy)]
enum Shape {
    /// Each of the first third reads what one of the second writes, and that one reads what one of the last third writes.
    Thirds,
    /// Each but the first reads what the one before wrote.
    Chain,
}

/// The stream that an activation reads, if it reads any.
fn read_by(shape: Shape, number: u32, count: u32) -> Option<u32> {
    match shape {
        Shape::Thirds if number < count / 3 => Some(3),
        Shape::Thirds if number < count / 3 * 2 => Some(2),
        Shape::Chain if number > 0 => Some(3 - number % 2),
        _ => None,
    }
}

/// The stream that an activation writes.
fn written_by(shape: Shape, number: u32, count: u32) -> u32 {
    match shape {
        Shape::Thirds if number < count / 3 => 1,
        Shape::Thirds if number < count / 3 * 2 => 3,
        Shape::Thirds => 2,
        Shape::Chain => 2 + number % 2,
    }
}

/// A claim of one element of a stream.
fn claim(stream: u32, write: bool) -> Claim {
    Claim {
        stream,
        write,
        horizon: 1,
        burst: 1,
        skip: 0,
    }
}

/// An activation that reads an element of a stream, if any, and writes one.
fn reading(alloc: Global, read: Option<u32>, written: u32) -> Result<Activation, Memory> {
    let writes = claim(written, true);
    match read {
        Some(stream) => activation(alloc, &[claim(stream, false), writes]),
        None => activation(alloc, &[writes]),
    }
}

/// `count` activations that read and write by a shape.
fn activations_of(alloc: Global, shape: Shape, count: u32) -> Result<Vec<Activation>, Memory> {
    let mut activations = Vec::new(alloc);
    for number in 0..count {
        let read = read_by(shape, number, count);
        let written = written_by(shape, number, count);
        activations.push(reading(alloc, read, written)?)?;
    }
    Ok(activations)
}

/// The plan of `count` activations of a shape.
fn shaped(alloc: Global, shape: Shape, count: u32) -> Result<Plan, Fail>
    ensures { IfOk result IsSound }
{
    let activations = activations_of(alloc, shape, count)?;
    plan_of(alloc, activations)
}

/// The lists of 1, 3 and 64 workers are whole, and a replay of them comes to the same.
#[test]
fn replays_what_workers_ran(rt: HostRuntime) -> Result<(), Fail> {
    let plan = shaped(rt.alloc(), Shape::Thirds, 300)?;
    for workers in [1, 3, 64] {
        assert!(rt; runs_again(&rt, rt.alloc(), &plan, workers)?);
    }
    Ok(())
}

/// Whether the lists of a run by `workers` workers are whole, and come to what the run came to.
fn runs_again<R: Threads + Sync>(
    rt: &R,
    alloc: Global,
    plan: &Plan,
    workers: u32,
) -> Result<bool, Memory>
    requires sound { IsSound plan.now }
    requires workers { (1 ≤ workers) × (workers ≤ workers_limit) }
{
    let Logged { ends, lists } = logged(rt, alloc, plan, workers, &NoGate)?;
    match replayed(alloc, plan, lists.as_slice(), true)? {
        Some(Replayed::Whole(again)) => Ok(are_same(&again, &ends)),
        _ => Ok(false),
    }
}

/// Whether a run came to the same as another one.
fn are_same(again: &Ends, ends: &Ends) -> bool {
    again.ends.as_slice() == ends.ends.as_slice()
        && again.output.as_slice() == ends.output.as_slice()
}

/// A run by `workers` workers, where some frames fail.
fn logged<R: Threads + Sync, G: Gate>(
    rt: &R,
    alloc: Global,
    plan: &Plan,
    workers: u32,
    gate: &G,
) -> Result<Logged, Memory>
    requires sound { IsSound plan.now }
    requires workers { (1 ≤ workers) × (workers ≤ workers_limit) }
{
    let bodies = Lasts {
        plan,
        some_fail: true,
    };
    execute_logged(rt, alloc, plan, &bodies, workers, gate)
}

/// How many frames each of three workers was about to run, and the sum of their numbers.
#[derive(Drop)]
struct Seen {
    frames: [AtomicU32; 3],
    sums: [AtomicU32; 3],
}

impl Gate for Seen {
    fn at(&self, worker: u32, frame: u32) {
        let worker = worker as usize;
        if worker < 3 {
            self.frames[worker].fetch_add(1, Ordering::SeqCst);
            self.sums[worker].fetch_add(frame, Ordering::SeqCst);
        }
    }
}

/// List k has what worker k ran.
#[test]
fn lists_stand_in_the_order_of_workers(rt: HostRuntime) -> Result<(), Fail> {
    let plan = shaped(rt.alloc(), Shape::Thirds, 300)?;
    assert!(rt; lists_are_of_their_workers(&rt, rt.alloc(), &plan)?);
    Ok(())
}

/// Whether the lists of a run by three workers have what each of them was about to run.
fn lists_are_of_their_workers<R: Threads + Sync>(
    rt: &R,
    alloc: Global,
    plan: &Plan,
) -> Result<bool, Memory>
    requires { IsSound plan.now }
{
    let seen = Seen {
        frames: [AtomicU32::new(0), AtomicU32::new(0), AtomicU32::new(0)],
        sums: [AtomicU32::new(0), AtomicU32::new(0), AtomicU32::new(0)],
    };
    let logged = logged(rt, alloc, plan, 3, &seen)?;
    Ok(have_seen(&seen, logged.lists.as_slice()))
}

/// Whether each worker was about to run as many frames as its list has, with the same sum.
fn have_seen(seen: &Seen, lists: &[List<u32>]) -> bool {
    for (worker, list) in lists.iter().enumerate() {
        if worker >= 3
            || seen.frames[worker].load(Ordering::SeqCst) as usize != list.len()
            || seen.sums[worker].load(Ordering::SeqCst) != sum_of(list.as_slice())
        {
            return false;
        }
    }
    true
}

/// The sum of numbers, modulo 2 to the power of 32.
fn sum_of(numbers: &[u32]) -> u32 {
    let mut sum: u32 = 0;
    for number in numbers {
        sum = sum.wrapping_add(*number);
    }
    sum
}

/// A chain of 65,536 frames that goes round 64 lists.
#[test]
fn replays_a_chain_that_goes_round_64_lists(rt: HostRuntime) -> Result<(), Fail> {
    let plan = shaped(rt.alloc(), Shape::Chain, 65_536)?;
    assert!(rt; is_whole_in_turn(rt.alloc(), &plan, 65_536)?);
    Ok(())
}

/// Whether `frames` frames that are dealt to 64 lists in turn are all that a plan can run.
fn is_whole_in_turn(alloc: Global, plan: &Plan, frames: u32) -> Result<bool, Memory>
    requires { IsSound plan.now }
{
    let lists = dealt(alloc, frames)?;
    let answer = replayed(alloc, plan, lists.as_slice(), false)?;
    Ok(matches!(answer, Some(Replayed::Whole(_))))
}

/// Frames below a number, dealt to 64 lists in turn.
fn dealt(alloc: Global, frames: u32) -> Result<Vec<List<u32>>, Memory> {
    let mut all = Vec::new(alloc);
    for list in 0..64 {
        all.push(dealt_to(alloc, frames, list)?)?;
    }
    Ok(all)
}

/// The frames below a number that one of 64 lists is dealt.
fn dealt_to(alloc: Global, frames: u32, list: u32) -> Result<List<u32>, Memory> {
    let mut numbers = List::new(alloc);
    for frame in 0..frames {
        if frame % 64 == list {
            numbers.push(frame)?;
        }
    }
    Ok(numbers)
}
