ghost use Rattle.std.specs.Prelude.{◌≡◌, ◌≤◌, ℕ, [], All, IfOk, None, Some, length, slice_get, slice_index_or, true};
ghost use Rattle.flow_core_laws.specs.Limits.{activations_limit, budget_limit};
ghost use Rattle.flow_core_laws.specs.Plans.{frame_at};
ghost use Rattle.flow_core_laws.specs.Streams.{output_count};
ghost use Rattle.flow_core_laws.specs.declared.activation.Activation.{Activation as Acts};
ghost use Rattle.os_code.specs.Codes.{parts_of};
ghost use Rattle.os_code.specs.Outcomes.{code_outcome};
ghost use Rattle.os_code.specs.Tasks.{Fits, TaskEnds, input_count};
ghost use Rattle.osview_steps.specs.Steps.{has_run};
ghost use Rattle.osview_steps.specs.Taking.{HaveRun, Took, end_at, inputs_at};
ghost use Rattle.task_vm.specs.Space.{IsMadeFor};
ghost use Rattle.task_vm.specs.Turns.{TakesTurns};

use crate::runs::{Taken, TaskRun};
use flow_core_laws::{Activation, Plan, TaskEnd};
use os_code::Code;
use os_io::{List, Memory};
use osview_outcomes::Outcomes;
use std::alloc::Global;
use task_vm::{Scratch, run_task};

/// Whether the body of an activation with this end ran.
fn has_run(end: Option<TaskEnd>) -> bool
    ensures { result ≡ has_run end }
{
    match end {
        Some(TaskEnd::Poisoned { .. }) => false,
        Some(_) => true,
        None => false,
    }
}

/// The end of an activation, if it has one.
fn end_of(outcomes: &Outcomes, place: usize) -> Option<TaskEnd>
    ensures { result ≡ end_at outcomes.now place }
{
    match outcomes.ends.get(place) {
        Some(end) => *end,
        None => None,
    }
}

/// What an activation read.
fn inputs_of(outcomes: &Outcomes, place: usize) -> &[i32]
    ensures { result.now ≡ inputs_at outcomes.now place }
{
    match outcomes.inputs.as_slice().get(place) {
        Some(inputs) => inputs.as_slice(),
        None => &[],
    }
}

/// What an activation takes over what it read: its task is run once more. It has `count` outputs.
fn taken_over(
    code: &Code,
    activation: &Activation,
    inputs: &[i32],
    count: u32,
    outputs: &mut Vec<i32>,
    scratch: &mut Scratch,
    budget: u64,
) -> Result<Taken, Memory>
    requires fits { Fits (parts_of code.now) activation.now }
    requires inputs { length inputs.now ≡ input_count activation.now }
    requires outputs { count ≡ output_count activation.now }
    requires made { IsMadeFor (parts_of code.now) scratch.old }
    requires budget { budget ≤ budget_limit }
    ensures steps { IfOk result (λ taken. TaskEnds (parts_of code.now) activation.now inputs.now budget
        (code_outcome (parts_of code.now) activation.now inputs.now budget) taken.steps) }
    ensures turns { IfOk result (λ taken. TakesTurns (parts_of code.now) activation.now inputs.now budget taken.turns) }
    ensures made { IsMadeFor (parts_of code.now) scratch.new }
{
    outputs.resize(count as usize, 0)?;
    run_task(
        code,
        activation,
        inputs,
        outputs.as_mut_slice(),
        scratch,
        budget,
    );
    Ok(Taken {
        steps: scratch.steps(),
        turns: scratch.turns(),
    })
}

/// The run of an activation, by what is kept of it.
fn run_of(
    code: &Code,
    activation: &Activation,
    place: usize,
    count: u32,
    outcomes: &Outcomes,
    outputs: &mut Vec<i32>,
    scratch: &mut Scratch,
    budget: u64,
) -> Result<TaskRun, Memory>
    requires fits { Fits (parts_of code.now) activation.now }
    requires inputs { has_run (end_at outcomes.now place) ≡ true → length (inputs_at outcomes.now place) ≡ input_count activation.now }
    requires outputs { count ≡ output_count activation.now }
    requires made { IsMadeFor (parts_of code.now) scratch.old }
    requires budget { budget ≤ budget_limit }
    ensures task { IfOk result (λ run. run.task ≡ activation.now.site) }
    ensures took { IfOk result (λ run. Took (parts_of code.now) activation.now (inputs_at outcomes.now place) budget (end_at outcomes.now place) run.took) }
    ensures made { IsMadeFor (parts_of code.now) scratch.new }
{
    let task = activation.site;
    if !has_run(end_of(outcomes, place)) {
        return Ok(TaskRun { task, took: None });
    }
    let inputs = inputs_of(outcomes, place);
    let taken = taken_over(code, activation, inputs, count, outputs, scratch, budget)?;
    Ok(TaskRun {
        task,
        took: Some(taken),
    })
}

/// The run of each activation, by what is kept of them.
pub(crate) fn all_runs(
    alloc: Global,
    code: &Code,
    activations: &[Activation],
    plan: &Plan,
    outcomes: &Outcomes,
    budget: u64,
) -> Result<List<TaskRun>, Memory>
    requires fit { All (Fits (parts_of code.now)) activations.now }
    requires inputs { (a : ℕ) (x : Acts) → slice_get activations.now a ≡ Some x → has_run (end_at outcomes.now a) ≡ true
        → length (inputs_at outcomes.now a) ≡ input_count x }
    requires outputs { (a : ℕ) (x : Acts) → slice_get activations.now a ≡ Some x → (frame_at plan.now a).outputs ≡ output_count x }
    requires few { length activations.now ≤ activations_limit }
    requires budget { budget ≤ budget_limit }
    ensures many { IfOk result (λ runs. length runs ≡ length activations.now) }
    ensures exact { IfOk result (λ runs. HaveRun (parts_of code.now) activations.now budget outcomes.now runs) }
{
    let mut scratch = Scratch::new(alloc, code)?;
    let mut outputs = Vec::new(alloc);
    let mut runs = List::with_capacity(alloc, activations.len())?;
    for place in 0..activations.len() {
        let run = run_of(
            code,
            &activations[place],
            place,
            plan.frame(place as u32).outputs,
            outcomes,
            &mut outputs,
            &mut scratch,
            budget,
        )?;
        runs.push(run)?;
    }
    Ok(runs)
}
