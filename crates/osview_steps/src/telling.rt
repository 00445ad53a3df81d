ghost use Rattle.std.specs.Prelude.{◌≡◌, ◌<◌, ◌≤◌, ◌*◌, ◌++◌, ◌==◌, All, IfOk, OnOk, codes, if◌then◌else◌, length};
ghost use Rattle.flow_core_laws.specs.Limits.{activations_limit};
ghost use Rattle.osview_steps.specs.Counting.{IsSmall};
ghost use Rattle.osview_steps.specs.Lines.{all_line, counts_text, longest_line, main_line, range_text, share_text, speed_line};
ghost use Rattle.osview_steps.specs.Lines.{step_count, steps_lines, turns_text};
ghost use Rattle.os_io.specs.Lines.{ended_line};
ghost use Rattle.osview_steps.specs.Told.{tally_line, tally_text};
ghost use Rattle.osview_steps.specs.declared.runs.TaskRun.{TaskRun};

use crate::numbers::{add_between, add_hundredths, add_tenths, mean, ratio, share};
use crate::runs::{Taken, TaskRun};
use crate::tally::{Tally, plus, tallies, total};
use os_io::Memory;
use osview_text::{Text, activation_word};
use std::alloc::Global;

/// Adds how many activations a task has, and how many of them ran.
fn add_counts(told: &mut Text, line: u32, activations: u32, ran: u32) -> Result<(), Memory>
    ensures { OnOk result (told.new ≡ told.old ++ counts_text line activations ran) }
{
    told.field(b"line ", line as u64)?;
    told.field(b": ", activations as u64)?;
    told.add(activation_word(activations as u64))?;
    told.field(b", ", ran as u64)?;
    told.add(b" of them ran")
}

/// Adds the least and the most of steps.
fn add_range(told: &mut Text, least: u64, most: u64) -> Result<(), Memory>
    ensures { OnOk result (told.new ≡ told.old ++ range_text least most) }
{
    told.field(b", ", least)?;
    told.field(b" to ", most)?;
    told.add(b" steps each")
}

/// Adds the share of steps in those of the run.
fn add_share(told: &mut Text, share: u128) -> Result<(), Memory>
    ensures { OnOk result (told.new ≡ told.old ++ share_text share) }
{
    told.add(b", ")?;
    add_tenths(told, share)?;
    told.add(b" % of the steps of the run")
}

/// What stands behind a number of steps.
fn step_word(count: u128) -> &'static [u8]
    ensures { result.now ≡ (if count == 1 then codes " step" else codes " steps") }
{
    if count == 1 { b" step" } else { b" steps" }
}

/// Adds a line: bytes, and a number of steps behind them.
fn add_step_line(told: &mut Text, before: &[u8], steps: u128) -> Result<(), Memory>
    ensures { OnOk result (told.new ≡ told.old ++ ended_line (before.now ++ step_count steps)) }
{
    add_between(told, before, steps, step_word(steps))?;
    told.add(b"\n")
}

/// What stands behind a number of turns of a budget.
fn turn_word(count: u64) -> &'static [u8]
    ensures { result.now ≡ (if count == 1 then codes " turn of its budget" else codes " turns of its budget") }
{
    if count == 1 {
        b" turn of its budget"
    } else {
        b" turns of its budget"
    }
}

/// Adds bytes, and a number of turns of a budget behind them.
fn add_turns(told: &mut Text, before: &[u8], turns: u64) -> Result<(), Memory>
    ensures { OnOk result (told.new ≡ told.old ++ (before.now ++ turns_text turns)) }
{
    told.field(before, turns)?;
    told.add(turn_word(turns))
}

/// Adds the line of `main`.
fn add_main(told: &mut Text, main: Taken, all: u128) -> Result<(), Memory>
    ensures { OnOk result (told.new ≡ told.old ++ main_line main all) }
{
    told.field(b"main: ", main.steps)?;
    told.add(step_word(u128::from(main.steps)))?;
    add_share(told, share(u128::from(main.steps), all))?;
    add_turns(told, b", ", main.turns)?;
    told.add(b"\n")
}

/// Adds what a task's activations took, where some ran.
fn add_steps(told: &mut Text, tally: Tally, all: u128) -> Result<(), Memory>
    requires { IsSmall activations_limit tally }
    ensures { OnOk result (told.new ≡ told.old ++ tally_text tally all) }
{
    if tally.ran == 0 {
        return Ok(());
    }
    add_range(told, tally.least, tally.most)?;
    add_between(told, b", ", mean(tally.sum, tally.ran), b" on average")?;
    add_between(told, b", ", tally.sum, b" in all")?;
    add_share(told, share(tally.sum, all))?;
    add_turns(told, b", at most ", tally.turns)
}

/// Adds the line of a task.
fn add_task(told: &mut Text, line: u32, tally: Tally, all: u128) -> Result<(), Memory>
    requires { IsSmall activations_limit tally }
    ensures { OnOk result (told.new ≡ told.old ++ tally_line line tally all) }
{
    add_counts(told, line, tally.activations, tally.ran)?;
    add_steps(told, tally, all)?;
    told.add(b"\n")
}

/// Adds how many times as fast more workers can make the tasks.
fn add_speed(told: &mut Text, all: u128, longest: u128) -> Result<(), Memory>
    requires { all ≤ activations_limit * 18446744073709551615 }
    ensures { OnOk result (told.new ≡ told.old ++ speed_line all longest) }
{
    told.add(b"more workers can make the tasks ")?;
    add_hundredths(told, ratio(all, longest))?;
    told.add(b" times as fast at most\n")
}

/// Adds the lines of the whole.
fn add_chain(told: &mut Text, all: u128, longest: u128) -> Result<(), Memory>
    requires { all ≤ activations_limit * 18446744073709551615 }
    ensures { OnOk result (told.new ≡ told.old ++ (all_line all ++ longest_line longest ++ speed_line all longest)) }
{
    add_step_line(told, b"all tasks: ", all)?;
    add_step_line(
        told,
        b"the longest chain of activations that wait for one another: ",
        longest,
    )?;
    add_speed(told, all, longest)
}

/// The lines of steps: that of `main`, one for each task, and those of the whole. `lines` has the line of each task's pragma, `runs` the
/// activations, `main` what the control program took, and `longest` has the steps of a longest chain of activations.
pub fn steps_text(
    alloc: Global,
    lines: &[u32],
    runs: &[TaskRun],
    main: Taken,
    longest: u128,
) -> Result<Text, Memory>
    requires few { length runs.now ≤ activations_limit }
    requires tasks { All (λ (r : TaskRun). r.task < length lines.now) runs.now }
    ensures { IfOk result (λ told. told ≡ steps_lines lines.now runs.now main longest) }
{
    let tallies = tallies(alloc, lines.len(), runs)?;
    let tasks = total(runs);
    let all = plus(tasks, main.steps);
    let mut told = Text::new(alloc);
    add_main(&mut told, main, all)?;
    for task in 0..lines.len() {
        add_task(&mut told, lines[task], tallies.as_slice()[task], all)?;
    }
    add_chain(&mut told, tasks, longest)?;
    Ok(told)
}
