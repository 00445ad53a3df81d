//! Runs whose control program ends where an epoch is half made.

ghost use Rattle.std.specs.Prelude.{◌≤◌};
ghost use Rattle.flow_core_laws.specs.Limits.{workers_limit};

use crate::compiled::compiled;
use crate::ways::are_same;
use epoch_run::{Budgets, EpochSize, RunResult, run_epochs, run_epochs_of};
use flow_core_laws::ControlEnd;
use os_code::Code;
use std::alloc::Global;
use std::process::Abort;
use std::thread::Threads;
use task_workers::NoGate;

/// A program that asks for more activations than a run may have.
const ACTIVATIONS: &str = r"int main(void) {
    int i, y;
    for (i = 0; i < 70000; i++) {
        #pragma omp task output(osout << y)
        y = i & 255;
    }
}
";

/// A program whose windows would cover more elements than a run's may: with one element covered, the 64th window of 65,536 has no room.
const ELEMENTS: &str = r"int main(void) {
    int i, y, w[65536];
    #pragma omp task input(osin >> y)
    ;
    for (i = 0; i < 70; i++) {
        #pragma omp task input(osin >> w[1])
        ;
    }
}
";

/// A program whose `main` never ends.
const TURNS: &str = r"int main(void) {
    int i = 0, y;
    while (1) {
        #pragma omp task input(osin >> y)
        ;
        i++;
    }
}
";

/// A program in which one activation traps, and `main` behind its loop.
const TRAPS: &str = r"int main(void) {
    int i, y;
    for (i = 0; i < 70; i++) {
        #pragma omp task output(osout << y)
        y = 1 / (60 - i) & 255;
    }
    i = 1 / (i - 70);
}
";

/// A program with the turns of `main`, how `main` ends, and how many activations it creates.
type Case = (&'static str, u64, ControlEnd, usize);

static CASES: [Case; 4] = [
    (ACTIVATIONS, 1_000_000, ControlEnd::Limit(1), 65_536),
    (ELEMENTS, 1_000_000, ControlEnd::Limit(2), 64),
    (TURNS, 100, ControlEnd::OverBudget, 100),
    (
        TRAPS,
        1_000_000,
        ControlEnd::Trapped { code: 2, line: 7 },
        70,
    ),
];

static INPUT: [u8; 5] = [1, 2, 3, 4, 5];

/// A run in epochs of at most `activations` activations, by `workers` workers, with `control` turns for `main`.
fn run<R: Threads + Sync>(
    rt: &R,
    alloc: Global,
    code: &Code,
    control: u64,
    activations: u32,
    workers: u32,
) -> Option<RunResult>
    requires some { 1 ≤ activations }
    requires workers { (1 ≤ workers) × (workers ≤ workers_limit) }
    requires budget { control ≤ 1000000 }
{
    let budgets = Budgets { task: 10, control };
    let size = EpochSize {
        activations,
        elements: 10_000_000,
        stretch: 64,
        growth: 1,
    };
    run_epochs_of(rt, alloc, code, &INPUT, budgets, workers, &NoGate, size).ok()
}

/// A run by `workers` workers, in control order where that may be.
fn run_in_order<R: Threads + Sync>(
    rt: &R,
    alloc: Global,
    code: &Code,
    control: u64,
    workers: u32,
) -> Option<RunResult>
    requires workers { (1 ≤ workers) × (workers ≤ workers_limit) }
    requires budget { control ≤ 1000000 }
{
    let budgets = Budgets { task: 10, control };
    run_epochs(rt, alloc, code, &INPUT, budgets, workers, &NoGate).ok()
}

/// Whether a run in epochs of at most `activations` activations comes to the same as another one.
fn is_same<R: Threads + Sync>(
    rt: &R,
    alloc: Global,
    code: &Code,
    control: u64,
    activations: u32,
    workers: u32,
    whole: &RunResult,
) -> bool
    requires some { 1 ≤ activations }
    requires workers { (1 ≤ workers) × (workers ≤ workers_limit) }
    requires budget { control ≤ 1000000 }
{
    match run(rt, alloc, code, control, activations, workers) {
        Some(run) => are_same(&run, whole),
        None => false,
    }
}

/// Whether a run in control order does.
fn is_same_in_order<R: Threads + Sync>(
    rt: &R,
    alloc: Global,
    code: &Code,
    control: u64,
    workers: u32,
    whole: &RunResult,
) -> bool
    requires workers { (1 ≤ workers) × (workers ≤ workers_limit) }
    requires budget { control ≤ 1000000 }
{
    match run_in_order(rt, alloc, code, control, workers) {
        Some(run) => are_same(&run, whole),
        None => false,
    }
}

/// Whether each way of a run comes to the same as one epoch.
fn are_all_same<R: Threads + Sync>(
    rt: &R,
    alloc: Global,
    code: &Code,
    control: u64,
    whole: &RunResult,
) -> bool
    requires { control ≤ 1000000 }
{
    is_same(rt, alloc, code, control, 7, 1, whole)
        && is_same(rt, alloc, code, control, 4096, 1, whole)
        && is_same(rt, alloc, code, control, 4096, 3, whole)
        && is_same_in_order(rt, alloc, code, control, 1, whole)
        && is_same_in_order(rt, alloc, code, control, 3, whole)
}

/// Whether each way of a run comes to what one epoch comes to, in which `main` ends with `end` and creates `count` activations.
fn ends_so<R: Threads + Sync>(
    rt: &R,
    alloc: Global,
    code: &Code,
    control: u64,
    end: ControlEnd,
    count: usize,
) -> bool
    requires { control ≤ 1000000 }
{
    let Some(whole) = run(rt, alloc, code, control, 70_000, 1) else {
        return false;
    };
    whole.control == end
        && whole.ends.ends.len() == count
        && are_all_same(rt, alloc, code, control, &whole)
}

/// Asks that a program ends as its case says, whichever way it runs.
fn ends_as_told<R: Threads + Sync + Abort>(rt: &R, alloc: Global, case: &Case) {
    let (text, control, end, count) = *case;
    let code = compiled(rt, alloc, text).expect(rt, "a program");
    let right = ends_so(rt, alloc, &code, control.min(1_000_000), end, count);
    assert!(rt; right, "{text}");
}

#[test]
fn main_ends_in_the_middle_of_an_epoch(rt: HostRuntime) {
    for case in &CASES {
        ends_as_told(&rt, rt.alloc(), case);
    }
}
