//! The run of a task, from its activation to its end.

ghost use Rattle.std.specs.Prelude.{◌≡◌, ℕ, ◌+◌, ◌≤◌, length, sum_by};
ghost use Rattle.std.specs.List.{list_all, filter};
ghost use Rattle.flow_core_laws.specs.Limits.{budget_limit};
ghost use Rattle.flow_core_laws.specs.Outcome.{outcome_of};
ghost use Rattle.flow_core_laws.specs.declared.claim.Claim.{Claim as TheClaim};
ghost use Rattle.flow_core_laws.specs.Streams.{output_count};
ghost use Rattle.os_code.specs.Codes.{parts_of};
ghost use Rattle.os_code.specs.Machine.{most_steps};
ghost use Rattle.os_code.specs.Outcomes.{code_outcome};
ghost use Rattle.flow_core_laws.specs.Byte.{is_byte};
ghost use Rattle.os_code.specs.Tasks.{Fits, input_count, TaskEnds};
ghost use Rattle.task_vm.specs.Ending.{all_bytes_from, end_of, IsSiteLine};
ghost use Rattle.task_vm.specs.Halting.{IsTaskUnit};
ghost use Rattle.task_vm.specs.Space.{IsMadeFor};
ghost use Rattle.task_vm.specs.Turns.{TakesTurns};

use crate::registers::{fill_frame, unit_at};
use crate::running::run;
use crate::scratch::{Scratch, reach};
use crate::stopping::TaskHalt;
use c_int::Trap;
use flow_core_laws::{Activation, Claim, TaskEnd};
use os_code::{Code, CodeUnit};

/// Runs the task of an activation to its end. The inputs are the elements of its input windows, item by item; the
/// outputs are those of its output windows, which are 0 at the start.
///
/// The activation has to fit the code, and the scratch to be made for it, as it is again at every end. The outputs of
/// a task that isn't `Done` are of no meaning. It takes no memory, and ends within `(budget + 1) * (code length + 1)`
/// steps.
pub fn run_task(
    code: &Code,
    activation: &Activation,
    inputs: &[i32],
    outputs: &mut [i32],
    scratch: &mut Scratch,
    budget: u64,
) -> TaskEnd
    requires fits { Fits (parts_of code.now) activation.now }
    requires inputs { length inputs.now ≡ input_count activation.now }
    requires outputs { length outputs.old ≡ output_count activation.now }
    requires made { IsMadeFor (parts_of code.now) scratch.old }
    requires budget { budget ≤ budget_limit }
    // how it ends is the machine's meaning
    ensures end { result ≡ (code_outcome (parts_of code.now) activation.now inputs.now budget).end }
    ensures outputs { result ≡ TaskEnd.Done → outputs.new ≡ (code_outcome (parts_of code.now) activation.now inputs.now budget).outputs }
    // and it is that in as many steps as the scratch tells
    ensures steps { TaskEnds (parts_of code.now) activation.now inputs.now budget
        (code_outcome (parts_of code.now) activation.now inputs.now budget) scratch.new.steps }
    ensures few_steps { scratch.new.steps ≤ most_steps (parts_of code.now) budget }
    // and takes as many turns of the budget as the scratch tells
    ensures turns { TakesTurns (parts_of code.now) activation.now inputs.now budget scratch.new.turns }
    ensures made_again { IsMadeFor (parts_of code.now) scratch.new }
    ensures same_length { length outputs.new ≡ length outputs.old }
{
    outputs.fill(0);
    let entry = entry_of(code, activation);
    reach(&mut scratch.slots, entry.unit.slots as usize);
    fill_frame(
        scratch.slots.as_mut_slice(),
        0,
        entry.unit.slots as usize,
        activation.captured.as_slice(),
    );
    let stopped = run(
        code,
        activation,
        entry.unit,
        inputs,
        outputs,
        scratch.stack.as_mut_slice(),
        &mut scratch.slots,
        scratch.callers.as_mut_slice(),
        budget,
        code.slots_need() as usize,
    );
    scratch.steps = stopped.steps;
    scratch.turns = budget - stopped.turns;
    end_at(
        stopped.halt,
        activation.claims.as_slice(),
        outputs,
        entry.line,
    )
}

/// Where a task begins: its unit, and the line of its site.
#[derive(Clone, Copy, Debug, PartialEq, Eq)]
struct Entry {
    unit: CodeUnit,
    line: u32,
}

/// The entry of an activation's task.
fn entry_of(code: &Code, activation: &Activation) -> Entry
    requires fits { Fits (parts_of code.now) activation.now }
    ensures unit { IsTaskUnit (parts_of code.now) activation.now result.unit }
    ensures line { IsSiteLine (parts_of code.now) activation.now result.line }
{
    let site = &code.sites.as_slice()[activation.site as usize];
    Entry {
        unit: unit_at(code.units.as_slice(), site.unit as usize),
        line: site.line,
    }
}

/// The end of a task whose run stops so with these outputs.
fn end_at(halt: TaskHalt, claims: &[Claim], outputs: &[i32], line: u32) -> TaskEnd
    requires whole { sum_by (λ (claim : TheClaim). claim.horizon) (filter (λ (claim : TheClaim). claim.write) claims.now) ≤ length outputs.now }
    ensures { result ≡ end_of halt (all_bytes_from claims.now outputs.now) line }
{
    match halt {
        TaskHalt::Ended => {
            if all_bytes(claims, outputs) {
                TaskEnd::Done
            } else {
                TaskEnd::Trapped {
                    code: Trap::NoByte.code(),
                    line,
                }
            }
        }
        TaskHalt::Trapped { trap, line } => TaskEnd::Trapped {
            code: trap.code(),
            line,
        },
        TaskHalt::OverBudget => TaskEnd::OverBudget,
    }
}

/// Whether the elements that go to `osout` are bytes.
fn all_bytes(claims: &[Claim], outputs: &[i32]) -> bool
    requires whole { sum_by (λ (claim : TheClaim). claim.horizon) (filter (λ (claim : TheClaim). claim.write) claims.now) ≤ length outputs.now }
    ensures { result ≡ all_bytes_from claims.now outputs.now }
{
    let mut first: usize = 0;
    for claim in claims {
        if claim.write {
            let behind = first + claim.horizon as usize;
            if claim.stream == 1 && !are_bytes(&outputs[first..behind]) {
                return false;
            }
            first = behind;
        }
    }
    true
}

/// Whether numbers are bytes.
fn are_bytes(numbers: &[i32]) -> bool
    ensures { result ≡ list_all is_byte numbers.now }
{
    for number in numbers {
        if *number < 0 || *number > 255 {
            return false;
        }
    }
    true
}
