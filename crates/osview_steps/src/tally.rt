ghost use Rattle.std.specs.Prelude.{◌≡◌, ◌+◌, ◌^◌, ◌<◌, ◌≤◌, ℕ, All, IfOk, length, max, min, slice_index_or, slice_set, sum, ◌*◌};
ghost use Rattle.flow_core_laws.specs.Limits.{activations_limit, last_activation};
ghost use Rattle.std.specs.Option.{option_map_or};
ghost use Rattle.osview_steps.specs.Counting.{IsSmall, IsTallyOf, counted, nothing_counted};
ghost use Rattle.osview_steps.specs.Steps.{steps_if};
ghost use Rattle.osview_steps.specs.Tallies.{all_steps};
ghost use Rattle.osview_steps.specs.declared.runs.TaskRun.{TaskRun};

use crate::runs::{Taken, TaskRun};
use os_io::{List, Memory};
use std::alloc::Global;

/// What is counted of a task.
#[derive(Clone, Copy, Debug)]
pub(crate) struct Tally {
    /// How many activations it has.
    pub(crate) activations: u32,
    /// How many of them ran.
    pub(crate) ran: u32,
    /// The least and the most steps of one of these; 0 where none ran.
    pub(crate) least: u64,
    pub(crate) most: u64,
    /// The steps of all of them.
    pub(crate) sum: u128,
    /// The most turns of its budget that one of them took; 0 where none ran.
    pub(crate) turns: u64,
}

impl Tally {
    /// Nothing is counted yet.
    pub(crate) fn nothing() -> Tally
        ensures { result ≡ nothing_counted }
    {
        Tally {
            activations: 0,
            ran: 0,
            least: 0,
            most: 0,
            sum: 0,
            turns: 0,
        }
    }

    /// The tally with one more activation in it, and with the steps and turns that it took if it ran.
    fn with(self, took: Option<Taken>) -> Tally
        requires { IsSmall last_activation self }
        ensures exact { result ≡ counted self took }
        ensures small { (n : ℕ) → IsSmall n self → IsSmall (n + 1) result }
    {
        match took {
            None => Tally {
                activations: self.activations + 1,
                ..self
            },
            Some(taken) => Tally {
                activations: self.activations + 1,
                ran: self.ran + 1,
                least: if self.ran == 0 {
                    taken.steps
                } else {
                    smaller(self.least, taken.steps)
                },
                most: larger(self.most, taken.steps),
                sum: plus(self.sum, taken.steps),
                turns: larger(self.turns, taken.turns),
            },
        }
    }
}

/// The smaller one of two numbers.
fn smaller(a: u64, b: u64) -> u64
    ensures { result ≡ min a b }
{
    if b < a { b } else { a }
}

/// The larger one of two numbers.
fn larger(a: u64, b: u64) -> u64
    ensures { result ≡ max a b }
{
    if a < b { b } else { a }
}

/// A sum with one more number.
pub(crate) fn plus(sum: u128, steps: u64) -> u128
    requires { sum + 18446744073709551615 < 2 ^ 128 }
    ensures sum { result ≡ sum + steps }
    ensures small { result ≤ sum + 18446744073709551615 }
{
    sum + u128::from(steps)
}

/// Counts one more activation.
fn count(tallies: &mut List<Tally>, run: TaskRun)
    requires inside { run.task < length tallies.old }
    requires small { IsSmall last_activation (slice_index_or tallies.old run.task nothing_counted) }
    ensures counted { tallies.new ≡ slice_set tallies.old run.task (counted (slice_index_or tallies.old run.task nothing_counted) run.took) }
    ensures small { (n : ℕ) → IsSmall n (slice_index_or tallies.old run.task nothing_counted)
        → IsSmall (n + 1) (counted (slice_index_or tallies.old run.task nothing_counted) run.took) }
{
    let before = tallies.as_slice()[run.task as usize];
    tallies.as_mut_slice()[run.task as usize] = before.with(run.took);
}

/// What is counted of each of `tasks` tasks, over the activations of a run.
pub(crate) fn tallies(alloc: Global, tasks: usize, runs: &[TaskRun]) -> Result<List<Tally>, Memory>
    requires few { length runs.now ≤ activations_limit }
    requires tasks { All (λ (r : TaskRun). r.task < tasks) runs.now }
    ensures many { IfOk result (λ tallies. length tallies ≡ tasks) }
    ensures exact { IfOk result (λ tallies. (t : ℕ) → t < tasks → IsTallyOf t runs.now (slice_index_or tallies t nothing_counted)) }
    ensures small { IfOk result (λ tallies. (t : ℕ) → t < tasks → IsSmall activations_limit (slice_index_or tallies t nothing_counted)) }
{
    let mut tallies = List::filled(alloc, Tally::nothing(), tasks)?;
    for run in runs {
        count(&mut tallies, *run);
    }
    Ok(tallies)
}

/// The steps of an activation; 0 where it never ran.
fn steps_of(run: &TaskRun) -> u64
    ensures { result ≡ option_map_or (λ n. n) (steps_if run.now.took) 0 }
{
    match run.took {
        Some(taken) => taken.steps,
        None => 0,
    }
}

/// The steps of all activations that ran.
pub(crate) fn total(runs: &[TaskRun]) -> u128
    requires few { length runs.now ≤ activations_limit }
    ensures exact { result ≡ sum (all_steps runs.now) }
    ensures small { result ≤ activations_limit * 18446744073709551615 }
{
    let mut total = 0;
    for run in runs {
        total = plus(total, steps_of(run));
    }
    total
}
