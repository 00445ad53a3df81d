//! The end of a task's body, and what it writes.

ghost use Rattle.std.specs.Prelude.{IfOk, map};
ghost use Rattle.cddf_meaning.specs.Body.{body, task_outcome};
ghost use Rattle.cddf_meaning.specs.Functions.{file_of};
ghost use Rattle.os_ast.specs.Views.{item_tree, program_tree};
ghost use Rattle.cddf_meaning_plain_state.specs.Ends.{IsOutcome};
ghost use Rattle.cddf_meaning_plain_tasks.specs.Sought.{task_of};

use crate::run::stmt;
use cddf_meaning_plain_state::ends::outcome_of;
use cddf_meaning_plain_tasks::body::state_round;
use cddf_meaning_plain_tasks::tasks::{main_of, tasks};
use cddf_meaning_plain_tasks::{Around, FoundTask};
use flow_core_laws::{Activation, TaskEnd};
use os_ast::{Item, Program};
use os_io::Memory;
use std::alloc::Global;

/// Runs the body of a task that stands behind these items of the file.
fn run_body(
    alloc: Global,
    file: &[Item],
    task: &FoundTask<'_>,
    activation: &Activation,
    inputs: &[i32],
    budget: u64,
) -> Result<(TaskEnd, Vec<i32>), Memory>
    ensures { IfOk result (λ r. IsOutcome r.0 r.1.items (task_outcome (file_of (map item_tree file.now))
        (task_of task.now) activation.now inputs.now budget)) }
{
    let mut state = state_round(alloc, task, activation, inputs)?;
    let around = Around {
        file,
        control: None,
    };
    let mut turns = budget;
    let came = stmt(alloc, &around, &task.site.body, &mut state, &mut turns);
    outcome_of(
        alloc,
        task.site.mark.line,
        activation.claims.as_slice(),
        came,
        state.items(),
    )
}

/// How an activation ends for its inputs, and the elements that it writes: those of its output items, in the order of
/// the clauses. Where it isn't done it writes nothing.
///
/// The program violates no rule, and the activation fits one of its tasks: by its number, by a value for each captured scalar,
/// and by a claim for each item. The inputs are the elements of its input items, one item after another, as many as the
/// horizons of its read claims add up to. The budget is that of one activation, in turns. `Memory` is the one error; it says
/// nothing of the program. The call is slow, and for tests.
pub fn plain_body(
    alloc: Global,
    program: &Program,
    activation: &Activation,
    inputs: &[i32],
    budget: u64,
) -> Result<(TaskEnd, Vec<i32>), Memory>
    ensures { IfOk result (λ r. IsOutcome r.0 r.1.items (body (program_tree program.now) activation.now inputs.now budget)) }
{
    let Some(main) = main_of(program.items.as_slice()) else {
        return Ok((TaskEnd::Done, Vec::new(alloc)));
    };
    let tasks = tasks(alloc, &main)?;
    match tasks.get(activation.site as usize) {
        None => Ok((TaskEnd::Done, Vec::new(alloc))),
        Some(task) => run_body(alloc, main.file, task, activation, inputs, budget),
    }
}
