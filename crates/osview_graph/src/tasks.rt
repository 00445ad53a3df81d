ghost use Rattle.std.specs.Prelude.{◌≡◌, ◌<◌, ◌++◌, if◌then◌else◌, IfOk, OnOk, length, map, slice_index_or};
ghost use Rattle.std.specs.List.{range_with_len};
ghost use Rattle.osview_graph.specs.Drawing.{is_so, run_of};
ghost use Rattle.osview_graph.specs.DrawnRun.{ended_so};
ghost use Rattle.osview_graph.specs.Tasks.{activations_text, ends_text, part_text, task_box, task_boxes, task_head};
ghost use Rattle.osview_graph.specs.Tables.{AreTaskCounts};

use crate::drawn::Drawn;
use crate::ending::Ending;
use crate::tables::{raise, row, zeros};
use os_io::Memory;
use osview_text::Text;
use std::alloc::Global;

/// What an activation adds to a count: 1 where it is counted, and else 0.
fn one_if(counted: bool) -> u64
    ensures { result ≡ (if counted then 1 else 0) }
{
    if counted { 1 } else { 0 }
}

/// How many activations of each task ended in this way.
fn counts(alloc: Global, drawn: &Drawn<'_>, ending: Ending) -> Result<Vec<u64>, Memory>
    ensures { IfOk result (λ counts. counts.items
        ≡ map (ended_so (run_of drawn.now) (is_so ending)) (range_with_len 0 (length drawn.now.lines.now))) }
{
    let mut counts = zeros(alloc, drawn.lines.len())?;
    for activation in 0..drawn.activations.len() as u64 {
        let amount = one_if(ending.is(drawn.end_at(activation)));
        raise(&mut counts, u64::from(drawn.task_at(activation)), amount);
    }
    Ok(counts)
}

/// What is counted of tasks: for each of them how many activations ended how.
#[derive(Drop)]
pub(crate) struct TaskCounts {
    pub(crate) all: Vec<u64>,
    pub(crate) done: Vec<u64>,
    pub(crate) trapped: Vec<u64>,
    pub(crate) over_budget: Vec<u64>,
    pub(crate) poisoned: Vec<u64>,
    pub(crate) starved: Vec<u64>,
}

/// Counts the activations of tasks.
fn count_tasks(alloc: Global, drawn: &Drawn<'_>) -> Result<TaskCounts, Memory>
    ensures { IfOk result (AreTaskCounts (run_of drawn.now)) }
{
    let all = counts(alloc, drawn, Ending::Any)?;
    let done = counts(alloc, drawn, Ending::Done)?;
    let trapped = counts(alloc, drawn, Ending::Trapped)?;
    let over_budget = counts(alloc, drawn, Ending::OverBudget)?;
    let poisoned = counts(alloc, drawn, Ending::Poisoned)?;
    let starved = counts(alloc, drawn, Ending::Starved)?;
    Ok(TaskCounts {
        all,
        done,
        trapped,
        over_budget,
        poisoned,
        starved,
    })
}

/// Adds how many activations a task has.
fn add_activations(told: &mut Text, count: u64) -> Result<(), Memory>
    ensures { OnOk result (told.new ≡ told.old ++ activations_text count) }
{
    if count == 1 {
        return told.add(b"1 activation");
    }
    told.number(count)?;
    told.add(b" activations")
}

/// Adds how many of them ended so, where some did.
fn add_part(told: &mut Text, count: u64, what: &[u8]) -> Result<(), Memory>
    ensures { OnOk result (told.new ≡ told.old ++ part_text count what.now) }
{
    if count == 0 {
        return Ok(());
    }
    told.field(b", ", count)?;
    told.add(what)
}

/// Adds how many activations of a task ended how.
fn add_ends(told: &mut Text, counts: &TaskCounts, task: u64) -> Result<(), Memory>
    ensures { OnOk result (told.new ≡ told.old ++ ends_text (slice_index_or counts.now.done.items task 0)
        (slice_index_or counts.now.trapped.items task 0) (slice_index_or counts.now.over_budget.items task 0)
        (slice_index_or counts.now.poisoned.items task 0) (slice_index_or counts.now.starved.items task 0)) }
{
    told.number(row(&counts.done, task))?;
    told.add(b" done")?;
    add_part(told, row(&counts.trapped, task), b" trapped")?;
    add_part(told, row(&counts.over_budget, task), b" out of turns")?;
    add_part(told, row(&counts.poisoned, task), b" poisoned")?;
    add_part(told, row(&counts.starved, task), b" starved")
}

/// Adds what stands in the box of a task before its counts.
fn add_head(told: &mut Text, drawn: &Drawn<'_>, task: u64) -> Result<(), Memory>
    ensures { OnOk result (told.new ≡ told.old ++ task_head (run_of drawn.now) task) }
{
    told.field(b"  task", task)?;
    told.field(
        b" [shape=box, label=\"task in line ",
        u64::from(drawn.line_at(task)),
    )?;
    told.add(b"\\n")
}

/// Adds the box of a task.
fn add_box(told: &mut Text, drawn: &Drawn<'_>, counts: &TaskCounts, task: u64) -> Result<(), Memory>
    requires counted { AreTaskCounts (run_of drawn.now) counts.now }
    requires exists { task < length drawn.now.lines.now }
    ensures { OnOk result (told.new ≡ told.old ++ task_box (run_of drawn.now) task) }
{
    add_head(told, drawn, task)?;
    add_activations(told, row(&counts.all, task))?;
    told.add(b"\\n")?;
    add_ends(told, counts, task)?;
    told.add(b"\"];\n")
}

/// Adds the boxes of all tasks.
pub(crate) fn add_boxes(alloc: Global, told: &mut Text, drawn: &Drawn<'_>) -> Result<(), Memory>
    ensures { OnOk result (told.new ≡ told.old ++ task_boxes (run_of drawn.now)) }
{
    let counts = count_tasks(alloc, drawn)?;
    for task in 0..drawn.lines.len() as u64 {
        add_box(told, drawn, &counts, task)?;
    }
    Ok(())
}
