//! The ways of a run: in epochs of each size, and in control order.

ghost use Rattle.std.specs.Prelude.{◌≤◌};
ghost use Rattle.flow_core_laws.specs.Limits.{workers_limit};

use epoch_run::{Budgets, EpochSize, RunResult, run_epochs, run_epochs_of};
use flow_core_laws::INPUT_LIMIT;
use os_code::Code;
use std::alloc::Global;
use std::process::Abort;
use std::thread::Threads;
use task_workers::NoGate;

/// A program with what it runs over.
#[derive(Clone, Copy)]
pub(crate) struct Job<'a> {
    /// Its text, which a failed test tells.
    pub text: &'a str,
    pub code: &'a Code,
    pub input: &'a [u8],
    /// How many turns each activation has.
    pub turns: u64,
}

/// Epochs of at most `activations` activations, whatever their windows.
fn of_activations(activations: u32) -> EpochSize
    requires { 1 ≤ activations }
    ensures { 1 ≤ result.activations }
{
    EpochSize {
        activations,
        elements: 65_536,
        stretch: 64,
        growth: 1,
    }
}

/// Epochs of one activation, and of up to `growth` while as many wait.
fn growing(growth: u32) -> EpochSize
    ensures { 1 ≤ result.activations }
{
    EpochSize {
        activations: 1,
        elements: 65_536,
        stretch: 64,
        growth,
    }
}

/// Epochs that end with the activation whose windows bring the elements of all to `elements`.
fn of_elements(elements: u64) -> EpochSize
    ensures { 1 ≤ result.activations }
{
    EpochSize {
        activations: 4096,
        elements,
        stretch: 1,
        growth: 0,
    }
}

/// A run in epochs of a size, by `workers` workers.
fn run<R: Threads + Sync + Abort>(
    rt: &R,
    alloc: Global,
    job: Job<'_>,
    size: EpochSize,
    workers: u32,
) -> RunResult
    requires some { 1 ≤ size.activations }
    requires workers { (1 ≤ workers) × (workers ≤ workers_limit) }
{
    let Job {
        text,
        code,
        input,
        turns,
    } = job;
    assert!(rt; input.len() <= INPUT_LIMIT as usize && turns <= 1_000_000);
    let budgets = Budgets {
        task: turns,
        control: 1_000_000,
    };
    run_epochs_of(rt, alloc, code, input, budgets, workers, &NoGate, size).expect(rt, text)
}

/// A run by `workers` workers, in control order where that may be.
fn run_in_order<R: Threads + Sync + Abort>(
    rt: &R,
    alloc: Global,
    job: Job<'_>,
    workers: u32,
) -> RunResult
    requires { (1 ≤ workers) × (workers ≤ workers_limit) }
{
    let Job {
        text,
        code,
        input,
        turns,
    } = job;
    assert!(rt; input.len() <= INPUT_LIMIT as usize && turns <= 1_000_000);
    let budgets = Budgets {
        task: turns,
        control: 1_000_000,
    };
    run_epochs(rt, alloc, code, input, budgets, workers, &NoGate).expect(rt, text)
}

/// A run in one epoch by one worker: of at most 4,096 activations.
pub(crate) fn run_whole<R: Threads + Sync + Abort>(
    rt: &R,
    alloc: Global,
    job: Job<'_>,
) -> RunResult {
    run(rt, alloc, job, of_activations(4096), 1)
}

/// Whether two runs came to the same: how each activation and `main` ended, and the output.
pub(crate) fn are_same(run: &RunResult, other: &RunResult) -> bool {
    run.control == other.control
        && run.ends.ends.as_slice() == other.ends.ends.as_slice()
        && run.ends.output.as_slice() == other.ends.output.as_slice()
}

/// Asks that a run came to the same as another one.
fn is_same(rt: &impl Abort, run: &RunResult, whole: &RunResult, text: &str) {
    let same = are_same(run, whole);
    assert!(rt; same, "{text}");
}

/// Asks that a program comes to the same in epochs of this size, by one worker and by three, as in one epoch.
fn comes_to_the_same<R: Threads + Sync + Abort>(
    rt: &R,
    alloc: Global,
    job: Job<'_>,
    whole: &RunResult,
    size: EpochSize,
)
    requires { 1 ≤ size.activations }
{
    is_same(rt, &run(rt, alloc, job, size, 1), whole, job.text);
    is_same(rt, &run(rt, alloc, job, size, 3), whole, job.text);
}

/// Asks that a program comes to the same in control order, by one worker and by three, as in one epoch.
fn comes_to_the_same_in_order<R: Threads + Sync + Abort>(
    rt: &R,
    alloc: Global,
    job: Job<'_>,
    whole: &RunResult,
) {
    is_same(rt, &run_in_order(rt, alloc, job, 1), whole, job.text);
    is_same(rt, &run_in_order(rt, alloc, job, 3), whole, job.text);
}

/// Asks that a program comes to the same as in one epoch: in short epochs, in epochs that end by elements, and in epochs that grow while
/// activations wait.
fn comes_to_the_same_in_epochs<R: Threads + Sync + Abort>(
    rt: &R,
    alloc: Global,
    job: Job<'_>,
    whole: &RunResult,
) {
    for length in 1..5 {
        comes_to_the_same(rt, alloc, job, whole, of_activations(length));
    }
    for elements in [0, 3, 10, 40] {
        comes_to_the_same(rt, alloc, job, whole, of_elements(elements));
    }
    for growth in [2, 7] {
        comes_to_the_same(rt, alloc, job, whole, growing(growth));
    }
}

/// In how many ways a program is run.
#[derive(Clone, Copy)]
pub(crate) enum Ways {
    /// In epochs of one to four activations, in epochs that end by elements or grow, and in control order.
    Each,
    /// In epochs of one activation, and in control order: for what takes long.
    Few,
}

/// Asks that a program comes to the same as in one epoch.
pub(crate) fn is_as_in_one_epoch<R: Threads + Sync + Abort>(
    rt: &R,
    alloc: Global,
    job: Job<'_>,
    whole: &RunResult,
    ways: Ways,
) {
    match ways {
        Ways::Each => comes_to_the_same_in_epochs(rt, alloc, job, whole),
        Ways::Few => comes_to_the_same(rt, alloc, job, whole, of_activations(1)),
    }
    comes_to_the_same_in_order(rt, alloc, job, whole);
}
