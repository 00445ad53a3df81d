//! Runs of plans on several workers, round by round and at once: the same ends and output elements as on
//! one thread, and those that a count by hand gives.
ghost use Rattle.std.specs.Prelude.{◌≤◌, IfOk};
ghost use Rattle.flow_core_laws.specs.IsSound.{IsSound};
ghost use Rattle.flow_core_laws.specs.Limits.{workers_limit};

mod logs;
mod stealing;

use crate::activations::{activation_of, laid_out, plan_over};
use flow_core::{Activation, Claim, Elem, Ends, Plan, TaskEnd, execute_one};
use flow_core_laws::WORKERS_LIMIT;
use lawful_layouts::Lasts;
use os_io::Memory;
use std::alloc::Global;
use std::process::Abort;
use std::sync::atomic::{AtomicU32, Ordering};
use std::test::Fail;
use std::thread::Threads;
use task_workers::{Gate, execute, execute_rounds};

/// How activations stand to one another.
#[derive(Clone, Copy)]
enum Shape {
    /// Each reads three elements of the input, and moves on by one.
    Windows,
    /// Each reads what the one before wrote.
    Chain,
    /// The first one writes what all others read, and the last one reads what they write.
    Fan,
    /// The first two wait for each other.
    Cycle,
    /// Each of the second half reads what one of the first half wrote.
    Layers,
    /// Each reads an element of the input.
    Single,
    /// Each reads four elements of the input, and writes four.
    Blocks,
}

/// A run with what a count by hand gives: how many activations end so, and elements of the output.
struct Case<'a> {
    shape: Shape,
    activations: u32,
    input: u32,
    some_fail: bool,
    done: u32,
    trapped: u32,
    over_budget: u32,
    poisoned: u32,
    output: usize,
    elements: &'a [(usize, Option<Elem>)],
}

impl Case<'_> {
    /// How many activations have an end: the gate is told of each, also of those that turn out poisoned.
    fn ended(&self) -> u64 {
        u64::from(self.done)
            + u64::from(self.trapped)
            + u64::from(self.over_budget)
            + u64::from(self.poisoned)
    }
}

static CASES: [Case<'static>; 8] = [
    Case {
        shape: Shape::Windows,
        activations: 3998,
        input: 4000,
        some_fail: false,
        done: 3998,
        trapped: 0,
        over_budget: 0,
        poisoned: 0,
        output: 3998,
        elements: &[
            (0, Some(Elem::Value(2))),
            (249, Some(Elem::Value(0))),
            (3997, Some(Elem::Value(234))),
        ],
    },
    Case {
        shape: Shape::Chain,
        activations: 1000,
        input: 4,
        some_fail: false,
        done: 1000,
        trapped: 0,
        over_budget: 0,
        poisoned: 0,
        output: 1,
        elements: &[(0, Some(Elem::Value(3)))],
    },
    Case {
        shape: Shape::Fan,
        activations: 1002,
        input: 4,
        some_fail: false,
        done: 1002,
        trapped: 0,
        over_budget: 0,
        poisoned: 0,
        output: 1,
        elements: &[(0, Some(Elem::Value(3)))],
    },
    Case {
        shape: Shape::Cycle,
        activations: 3,
        input: 4,
        some_fail: false,
        done: 1,
        trapped: 0,
        over_budget: 0,
        poisoned: 0,
        output: 1,
        elements: &[(0, Some(Elem::Value(0)))],
    },
    // The first 1,001 end in turn Done, trapped, over budget, Done, Done. The other thousand go on from
    // there, one place further: of each five the first traps, two read poison, two are Done.
    Case {
        shape: Shape::Layers,
        activations: 2001,
        input: 1001,
        some_fail: true,
        done: 1001,
        trapped: 400,
        over_budget: 200,
        poisoned: 400,
        output: 1000,
        elements: &[
            (0, Some(Elem::Poison(1001))),
            (1, Some(Elem::Poison(1))),
            (2, Some(Elem::Poison(2))),
            (3, Some(Elem::Value(3))),
            (4, Some(Elem::Value(4))),
            (999, Some(Elem::Value(246))),
        ],
    },
    Case {
        shape: Shape::Single,
        activations: 0,
        input: 4,
        some_fail: false,
        done: 0,
        trapped: 0,
        over_budget: 0,
        poisoned: 0,
        output: 0,
        elements: &[],
    },
    // More workers than activations.
    Case {
        shape: Shape::Single,
        activations: 3,
        input: 4,
        some_fail: false,
        done: 3,
        trapped: 0,
        over_budget: 0,
        poisoned: 0,
        output: 3,
        elements: &[
            (0, Some(Elem::Value(0))),
            (1, Some(Elem::Value(1))),
            (2, Some(Elem::Value(2))),
        ],
    },
    // The input ends before the last twenty.
    Case {
        shape: Shape::Single,
        activations: 4120,
        input: 4100,
        some_fail: false,
        done: 4100,
        trapped: 0,
        over_budget: 0,
        poisoned: 0,
        output: 4120,
        elements: &[(4099, Some(Elem::Value(83))), (4100, None), (4119, None)],
    },
];

/// One failed activation poisons many, and many poison one.
static FAILING: [Case<'static>; 2] = [
    // The second one traps, and poisons all behind it, each by way of the one before.
    Case {
        shape: Shape::Chain,
        activations: 1000,
        input: 4,
        some_fail: true,
        done: 1,
        trapped: 1,
        over_budget: 0,
        poisoned: 998,
        output: 1,
        elements: &[(0, Some(Elem::Poison(1)))],
    },
    // Of the thousand in the middle 200 trap and 200 are over budget; the last one reads from all of them.
    Case {
        shape: Shape::Fan,
        activations: 1002,
        input: 4,
        some_fail: true,
        done: 601,
        trapped: 200,
        over_budget: 200,
        poisoned: 1,
        output: 1,
        elements: &[(0, Some(Elem::Poison(1)))],
    },
];

/// How often the gate was called, and the highest worker that it was told.
#[derive(Drop)]
struct Calls {
    count: AtomicU32,
    worker: AtomicU32,
}

impl Calls {
    fn none() -> Calls {
        Calls {
            count: AtomicU32::new(0),
            worker: AtomicU32::new(0),
        }
    }
}

impl Gate for Calls {
    fn at(&self, worker: u32, _frame: u32) {
        self.count.fetch_add(1, Ordering::SeqCst);
        self.worker.fetch_max(worker, Ordering::SeqCst);
    }
}

/// Several workers give what one thread gives, and what was counted by hand.
#[test]
fn runs_as_one_thread_does(rt: HostRuntime) -> Result<(), Fail> {
    all_run_by_hand(&rt, rt.alloc(), &CASES)
}

#[test]
fn poison_reaches_all_that_read_it(rt: HostRuntime) -> Result<(), Fail> {
    all_run_by_hand(&rt, rt.alloc(), &FAILING)
}

/// Whether the plan of each case runs as was counted by hand.
fn all_run_by_hand<R: Threads + Abort + Sync>(
    rt: &R,
    alloc: Global,
    cases: &[Case<'_>],
) -> Result<(), Fail> {
    for case in cases {
        let plan = plan_of_case(alloc, case)?;
        runs_by_hand(rt, alloc, case, &plan)?;
    }
    Ok(())
}

/// The plan of a case's activations, where an element of the input is its position modulo 251.
fn plan_of_case(alloc: Global, case: &Case<'_>) -> Result<Plan, Fail>
    ensures { IfOk result IsSound }
{
    let input = input_of(alloc, case.input)?;
    let activations = activations_of(alloc, case)?;
    let layout = laid_out(alloc, 4, case.input, activations)?;
    plan_over(alloc, &layout, input.as_slice())
}

/// An input of `count` elements.
fn input_of(alloc: Global, count: u32) -> Result<Vec<u8>, Memory> {
    let mut input = Vec::new(alloc);
    for k in 0..count {
        input.push((k % 251) as u8)?;
    }
    Ok(input)
}

/// Whether a case's plan runs so on one thread and on several workers.
fn runs_by_hand<R: Threads + Abort + Sync>(
    rt: &R,
    alloc: Global,
    case: &Case<'_>,
    plan: &Plan,
) -> Result<(), Fail>
    requires { IsSound plan.now }
{
    let bodies = Lasts {
        plan,
        some_fail: case.some_fail,
    };
    let one = execute_one(alloc, plan, &bodies)?;
    is_counted(rt, case, &one);
    for workers in [1, 2, 7, 64] {
        runs_by_rounds(rt, alloc, case, plan, workers, &one)?;
        runs_at_once(rt, alloc, case, plan, workers, &one)?;
    }
    Ok(())
}

/// Whether workers round by round come to the same, each frame run once.
fn runs_by_rounds<R: Threads + Abort + Sync>(
    rt: &R,
    alloc: Global,
    case: &Case<'_>,
    plan: &Plan,
    workers: u32,
    one: &Ends,
) -> Result<(), Memory>
    requires sound { IsSound plan.now }
    requires workers { (1 ≤ workers) × (workers ≤ workers_limit) }
{
    let bodies = Lasts {
        plan,
        some_fail: case.some_fail,
    };
    let calls = Calls::none();
    let many = execute_rounds(rt, alloc, plan, &bodies, workers, &calls)?;
    is_same(rt, &many, one);
    were_in_bounds(rt, &calls, case.ended(), workers);
    Ok(())
}

/// Whether workers over one table come to the same, each frame run once.
fn runs_at_once<R: Threads + Abort + Sync>(
    rt: &R,
    alloc: Global,
    case: &Case<'_>,
    plan: &Plan,
    workers: u32,
    one: &Ends,
) -> Result<(), Memory>
    requires sound { IsSound plan.now }
    requires workers { (1 ≤ workers) × (workers ≤ workers_limit) }
{
    let bodies = Lasts {
        plan,
        some_fail: case.some_fail,
    };
    let calls = Calls::none();
    let many = execute(rt, alloc, plan, &bodies, workers, &calls)?;
    is_same(rt, &many, one);
    were_in_bounds(rt, &calls, case.ended(), workers);
    Ok(())
}

/// Whether a run came to the same as another one.
fn is_same(rt: &impl Abort, many: &Ends, one: &Ends) {
    assert!(rt; many.ends.as_slice() == one.ends.as_slice());
    assert!(rt; many.output.as_slice() == one.output.as_slice());
}

/// Whether `ran` frames were run, and by none but the first `workers` workers.
fn were_in_bounds(rt: &impl Abort, calls: &Calls, ran: u64, workers: u32) {
    assert!(rt; calls.worker.load(Ordering::SeqCst) < workers);
    assert!(rt; u64::from(calls.count.load(Ordering::SeqCst)) == ran);
}

/// The most turns for which a worker is held.
const TURNS: u32 = 500_000_000;

/// Holds each worker until `frames` frames were entered, and notes where the turns ran out.
#[derive(Drop)]
struct Meeting {
    frames: u32,
    entered: AtomicU32,
    ran_out: AtomicU32,
}

impl Gate for Meeting {
    fn at(&self, _worker: u32, _frame: u32) {
        self.entered.fetch_add(1, Ordering::SeqCst);
        for _ in 0..TURNS {
            if self.entered.load(Ordering::SeqCst) >= self.frames {
                return;
            }
        }
        self.ran_out.fetch_add(1, Ordering::SeqCst);
    }
}

/// Activations that are all open from the start, as kernel `invert` makes them over eight bytes and over 32.
static MEETINGS: [Case<'static>; 2] = [
    Case {
        shape: Shape::Blocks,
        activations: 2,
        input: 8,
        some_fail: false,
        done: 2,
        trapped: 0,
        over_budget: 0,
        poisoned: 0,
        output: 8,
        elements: &[],
    },
    Case {
        shape: Shape::Blocks,
        activations: 8,
        input: 32,
        some_fail: false,
        done: 8,
        trapped: 0,
        over_budget: 0,
        poisoned: 0,
        output: 32,
        elements: &[],
    },
];

/// Workers run at the same time: each frame is held until all of them were entered.
#[test]
fn runs_as_many_frames_at_once_as_workers(rt: HostRuntime) -> Result<(), Fail> {
    for case in &MEETINGS {
        let workers = case.activations;
        assert!(rt; 1 <= workers && workers <= WORKERS_LIMIT);
        let plan = plan_of_case(rt.alloc(), case)?;
        meets(&rt, rt.alloc(), &plan, workers)?;
    }
    Ok(())
}

/// Whether all frames of a plan were entered before any of them ran.
fn meets<R: Threads + Abort + Sync>(
    rt: &R,
    alloc: Global,
    plan: &Plan,
    workers: u32,
) -> Result<(), Fail>
    requires sound { IsSound plan.now }
    requires workers { (1 ≤ workers) × (workers ≤ workers_limit) }
{
    let bodies = Lasts {
        plan,
        some_fail: false,
    };
    let gate = Meeting {
        frames: workers,
        entered: AtomicU32::new(0),
        ran_out: AtomicU32::new(0),
    };
    execute(rt, alloc, plan, &bodies, workers, &gate)?;
    assert!(rt; gate.entered.load(Ordering::SeqCst) == workers);
    assert!(rt; gate.ran_out.load(Ordering::SeqCst) == 0);
    Ok(())
}

/// Whether a run came to what was counted by hand.
fn is_counted(rt: &impl Abort, case: &Case<'_>, ends: &Ends) {
    assert!(rt; ends.ends.len() == case.activations as usize);
    has_count_of(rt, ends.ends.as_slice(), Kind::Done, case.done);
    has_count_of(rt, ends.ends.as_slice(), Kind::Trapped, case.trapped);
    has_count_of(rt, ends.ends.as_slice(), Kind::OverBudget, case.over_budget);
    has_count_of(rt, ends.ends.as_slice(), Kind::Poisoned, case.poisoned);
    assert!(rt; ends.output.len() == case.output);
    has_elements(rt, ends.output.as_slice(), case.elements);
}

/// How an activation ends.
#[derive(Clone, Copy)]
enum Kind {
    Done,
    Trapped,
    OverBudget,
    Poisoned,
}

/// Whether an end is of a kind.
fn is_of(end: &Option<TaskEnd>, kind: Kind) -> bool {
    match kind {
        Kind::Done => matches!(end, Some(TaskEnd::Done)),
        Kind::Trapped => matches!(end, Some(TaskEnd::Trapped { .. })),
        Kind::OverBudget => matches!(end, Some(TaskEnd::OverBudget)),
        Kind::Poisoned => matches!(end, Some(TaskEnd::Poisoned { .. })),
    }
}

/// Whether `wanted` ends are of a kind.
fn has_count_of(rt: &impl Abort, ends: &[Option<TaskEnd>], kind: Kind, wanted: u32) {
    let mut count: u32 = 0;
    for end in ends {
        if is_of(end, kind) {
            count = count.saturating_add(1);
        }
    }
    assert!(rt; count == wanted);
}

/// Whether an output has these elements at these places.
fn has_elements(rt: &impl Abort, output: &[Option<Elem>], elements: &[(usize, Option<Elem>)]) {
    for (place, element) in elements {
        assert!(rt; output.get(*place) == Some(element));
    }
}

/// The activations of a case.
fn activations_of(alloc: Global, case: &Case<'_>) -> Result<Vec<Activation>, Memory> {
    let mut activations = Vec::new(alloc);
    for number in 0..case.activations {
        let last = case.activations - 1;
        let reads = read_by(case.shape, number, last);
        let writes = written_by(case.shape, number, last);
        activations.push(activation_of(alloc, &[reads, writes])?)?;
    }
    Ok(activations)
}

/// What an activation reads.
fn read_by(shape: Shape, number: u32, last: u32) -> Claim {
    match shape {
        Shape::Windows => read(0, 3, 1),
        Shape::Chain | Shape::Fan if number == 0 => read(0, 4, 4),
        Shape::Chain => read(2, 1, 1),
        Shape::Fan if number == last && last > 1 => read(3, last - 1, last - 1),
        Shape::Fan => read(2, 1, 0),
        Shape::Cycle if number == 0 => read(2, 1, 1),
        Shape::Cycle if number == 1 => read(3, 1, 1),
        Shape::Blocks => read(0, 4, 4),
        Shape::Layers if number > last / 2 => read(2, 1, 1),
        _ => read(0, 1, 1),
    }
}

/// What an activation writes: one element of a stream, or a block of four.
fn written_by(shape: Shape, number: u32, last: u32) -> Claim {
    let stream = match shape {
        Shape::Chain if number < last => 2,
        Shape::Fan if number == 0 => 2,
        Shape::Fan if number < last => 3,
        Shape::Cycle if number == 0 => 3,
        Shape::Cycle if number == 1 => 2,
        Shape::Layers if number <= last / 2 => 2,
        _ => 1,
    };
    let horizon = match shape {
        Shape::Blocks => 4,
        _ => 1,
    };
    Claim {
        stream,
        write: true,
        horizon,
        burst: horizon,
        skip: 0,
    }
}

fn read(stream: u32, horizon: u32, burst: u32) -> Claim {
    Claim {
        stream,
        write: false,
        horizon,
        burst,
        skip: 0,
    }
}
