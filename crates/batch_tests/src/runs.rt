//! Batches of one activation, of three and of all, by one, two and four workers.

ghost use Rattle.std.specs.Prelude.{◌≡◌, ◌≤◌, IfOk, length};
ghost use Rattle.epoch_run_batches.specs.Meant.{HoldMeant, Run};
ghost use Rattle.flow_core_laws.specs.IsSound.{IsSound};
ghost use Rattle.flow_core_laws.specs.Limits.{workers_limit};
ghost use Rattle.flow_core_laws.specs.StandsFor.{StandsFor};
ghost use Rattle.stream_match_layouts.specs.Layout.{IsLayout, IsLayoutOf};

use crate::cases::{CASES, Case, activations_of, input_of};
use epoch_run_batches::{BatchOutcome, Streams};
use epoch_run_batches_table::{Batch, run_batches};
use flow_core::{Activation, Elem, Ends, Plan, TaskEnd, execute_one};
use lawful_layouts::{Lasts, lawful_layout};
use os_io::{List, Memory};
use std::alloc::Global;
use std::process::Abort;
use std::test::Fail;
use std::thread::Threads;
use stream_match::build;
use stream_match_layouts::Layout;
use task_workers::NoGate;

/// Batches come to the ends and the output that one thread comes to, however they are cut and by however many workers they are run.
#[test]
fn batches_come_to_what_one_thread_comes_to(rt: HostRuntime) -> Result<(), Fail> {
    for case in &CASES {
        comes_to_the_same(&rt, rt.alloc(), *case)?;
    }
    Ok(())
}

/// Whether the batches of a case come to what one thread comes to.
fn comes_to_the_same<R: Threads + Abort + Sync>(
    rt: &R,
    alloc: Global,
    case: Case,
) -> Result<(), Fail> {
    let input = input_of(alloc, case.input)?;
    let activations = activations_of(alloc, case)?;
    let Some(layout) = lawful_layout(alloc, 4, case.input, activations.as_slice())? else {
        return Err(Fail::from("the activations aren't lawful"));
    };
    if input.len() != layout.input_len as usize {
        return Err(Fail::from("the input has another length"));
    }
    let plan = build(alloc, &layout, input.as_slice())?;
    come_to_the_same(
        rt,
        alloc,
        case.some_fail,
        activations.as_slice(),
        &layout,
        &plan,
        input.as_slice(),
    )
}

/// Whether batches of some sizes, by some numbers of workers, come to what one thread comes to that runs the plan.
fn come_to_the_same<R: Threads + Abort + Sync>(
    rt: &R,
    alloc: Global,
    some_fail: bool,
    activations: &[Activation],
    layout: &Layout,
    plan: &Plan,
    input: &[u8],
) -> Result<(), Fail>
    requires layout { IsLayout layout.now }
    requires laid { IsLayoutOf layout.now activations.now }
    requires sound { IsSound plan.now }
    requires stands { StandsFor plan.now activations.now input.now }
{
    let bodies = Lasts { plan, some_fail };
    let one = execute_one(alloc, plan, &bodies)?;
    for size in [1, 3, 64] {
        for workers in [1, 2, 4] {
            let batches = cut(alloc, activations.len() as u32, size)?;
            let outcomes = outcomes_of(
                rt,
                alloc,
                some_fail,
                activations,
                layout,
                plan,
                input,
                batches.as_slice(),
                workers,
            )?;
            are_ends(rt, outcomes.as_slice(), one.ends.as_slice());
            are_elements(rt, outcomes.as_slice(), one.output.as_slice());
        }
    }
    Ok(())
}

/// What batches come to.
pub(crate) fn outcomes_of<R: Threads + Abort + Sync>(
    rt: &R,
    alloc: Global,
    some_fail: bool,
    activations: &[Activation],
    layout: &Layout,
    plan: &Plan,
    input: &[u8],
    batches: &[Batch],
    workers: u32,
) -> Result<List<BatchOutcome>, Memory>
    requires layout { IsLayout layout.now }
    requires laid { IsLayoutOf layout.now activations.now }
    requires stands { StandsFor plan.now activations.now input.now }
    requires workers { (1 ≤ workers) × (workers ≤ workers_limit) }
{
    let bodies = Lasts { plan, some_fail };
    let before = nothing(alloc);
    run_batches(
        rt,
        alloc,
        activations,
        layout,
        &bodies,
        input,
        &before,
        batches,
        workers,
        &NoGate,
    )
}

/// Streams without elements.
pub(crate) fn nothing(alloc: Global) -> Streams
    ensures as_many { length result.firsts ≡ length result.elements }
    ensures meant { (run : Run) → HoldMeant run result }
{
    Streams {
        elements: List::new(alloc),
        firsts: List::new(alloc),
    }
}

/// Batches of `size` activations each, in order. Each looks in the slots of all before it.
pub(crate) fn cut(alloc: Global, activations: u32, size: u32) -> Result<List<Batch>, Memory>
    requires { 1 ≤ size }
{
    let mut batches = List::new(alloc);
    for number in 0..activations.div_ceil(size) {
        let begin = number.saturating_mul(size);
        let end = begin.saturating_add(size).min(activations);
        batches.push(Batch {
            numbers: range_of(alloc, begin, end)?,
            from: range_of(alloc, 0, number)?,
        })?;
    }
    Ok(batches)
}

/// The numbers from one to before another.
pub(crate) fn range_of(alloc: Global, begin: u32, end: u32) -> Result<List<u32>, Memory> {
    let mut numbers = List::new(alloc);
    for number in begin..end {
        numbers.push(number)?;
    }
    Ok(numbers)
}

/// Whether batches have these ends, each once, and no others.
pub(crate) fn are_ends(rt: &impl Abort, outcomes: &[BatchOutcome], ends: &[Option<TaskEnd>]) {
    let mut number: u32 = 0;
    let mut count: u64 = 0;
    for end in ends {
        assert!(rt; end_in(outcomes, number) == *end);
        number = number.saturating_add(1);
        count = count.saturating_add(u64::from(end.is_some()));
    }
    assert!(rt; count_in(outcomes) == count);
}

/// How many ends batches have.
pub(crate) fn count_in(outcomes: &[BatchOutcome]) -> u64 {
    let mut count: u64 = 0;
    for outcome in outcomes {
        count = count.saturating_add(outcome.ended.len() as u64);
    }
    count
}

/// The end of an activation, if a batch has it.
fn end_in(outcomes: &[BatchOutcome], number: u32) -> Option<TaskEnd> {
    for outcome in outcomes {
        if let Some(end) = end_of(outcome, number) {
            return Some(end);
        }
    }
    None
}

/// The end of an activation, if this batch has it.
fn end_of(outcome: &BatchOutcome, number: u32) -> Option<TaskEnd> {
    for ended in outcome.ended.as_slice() {
        if ended.number == number {
            return Some(ended.end);
        }
    }
    None
}

/// Whether batches have these elements of the output.
pub(crate) fn are_elements(rt: &impl Abort, outcomes: &[BatchOutcome], output: &[Option<Elem>]) {
    for (position, element) in output.iter().enumerate() {
        assert!(rt; element_in(outcomes, position as u64) == *element);
    }
}

/// The element at a position of the output, if a batch has it.
fn element_in(outcomes: &[BatchOutcome], position: u64) -> Option<Elem> {
    for outcome in outcomes {
        if let Some(element) = element_of(outcome, position) {
            return Some(element);
        }
    }
    None
}

/// The element at a position of the output, if this batch has it.
fn element_of(outcome: &BatchOutcome, position: u64) -> Option<Elem> {
    if outcome.wrote.firsts.len() != outcome.wrote.elements.len() {
        return None;
    }
    outcome.wrote.find(1, position)
}
