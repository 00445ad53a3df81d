//! What comes of the end of a task's body.

ghost use Rattle.std.specs.Prelude.{◌≡◌, ℕ, IfOk};
ghost use Rattle.std.specs.List.{list_all};
ghost use Rattle.cddf_meaning.specs.Body.{gives_bytes, outcome, outputs_of};
ghost use Rattle.cddf_meaning.specs.Flow.{Ran};
ghost use Rattle.cddf_meaning.specs.BodyState as states;
ghost use Rattle.flow_core_laws.specs.Byte.{is_byte};
ghost use Rattle.cddf_meaning_plain_state.specs.Ends.{IsOutcome, finished, task_end};
ghost use Rattle.cddf_meaning_plain_state.specs.Stops.{Leaves};

use crate::stop::Stop;
use c_int::Trap;
use cddf_meaning::{Ending, Flow};
use flow_core_laws::{Claim, TaskEnd};
use os_io::{List, Memory};
use std::alloc::Global;

/// The number of the stream `osout`, which takes bytes alone.
const OUTPUT: u32 = 1;

fn is_byte(number: i32) -> bool
    ensures { result ≡ is_byte number }
{
    u8::try_from(number).is_ok()
}

fn all_bytes(numbers: &[i32]) -> bool
    ensures { result ≡ list_all is_byte numbers.now }
{
    for number in numbers {
        if !is_byte(*number) {
            return false;
        }
    }
    true
}

/// Whether every element that goes to `osout` is a byte.
fn gives_bytes(claims: &[Claim], items: &[List<i32>]) -> bool
    ensures { result ≡ gives_bytes claims.now items.now }
{
    for (place, claim) in claims.iter().enumerate() {
        let Some(item) = items.get(place) else {
            return true;
        };
        if claim.write && claim.stream == OUTPUT && !all_bytes(item.as_slice()) {
            return false;
        }
    }
    true
}

/// The elements of the output items.
fn outputs_of(alloc: Global, claims: &[Claim], items: &[List<i32>]) -> Result<Vec<i32>, Memory>
    ensures { IfOk result (λ outputs. outputs.items ≡ outputs_of claims.now items.now) }
{
    let mut outputs = Vec::new(alloc);
    for (place, claim) in claims.iter().enumerate() {
        let Some(item) = items.get(place) else {
            return Ok(outputs);
        };
        if claim.write {
            outputs.extend_from_slice(item.as_slice())?;
        }
    }
    Ok(outputs)
}

/// What an activation comes to whose body ended normally, with these elements in its items. The line is that of the
/// task's pragma.
fn finished(
    alloc: Global,
    line: u32,
    claims: &[Claim],
    items: &[List<i32>],
) -> Result<(TaskEnd, Vec<i32>), Memory>
    ensures { IfOk result (λ r. IsOutcome r.0 r.1.items (finished line claims.now items.now)) }
{
    if gives_bytes(claims, items) {
        let outputs = outputs_of(alloc, claims, items)?;
        Ok((TaskEnd::Done, outputs))
    } else {
        let end = TaskEnd::Trapped {
            code: Trap::NoByte.code(),
            line,
        };
        Ok((end, Vec::new(alloc)))
    }
}

/// The end of an activation whose body ended before its last statement.
fn task_end(ending: Ending) -> TaskEnd
    ensures { result ≡ task_end ending }
{
    match ending {
        Ending::Trapped { trap, line } => TaskEnd::Trapped {
            code: trap.code(),
            line,
        },
        Ending::OverBudget | Ending::Limited(_) => TaskEnd::OverBudget,
    }
}

/// What an activation comes to whose body came to this, with these elements in its items: its end, and what it writes.
/// Where the body ended before its last statement it writes nothing. The line is that of the task's pragma.
pub fn outcome_of(
    alloc: Global,
    line: u32,
    claims: &[Claim],
    came: Result<Flow, Stop>,
    items: &[List<i32>],
) -> Result<(TaskEnd, Vec<i32>), Memory>
    ensures { (s : states.BodyState) (turns : ℕ) (ran : Ran) → s.items ≡ items.now → Leaves came s turns ran
        → IfOk result (λ r. IsOutcome r.0 r.1.items (outcome line claims.now ran)) }
{
    match came {
        Ok(_) => finished(alloc, line, claims, items),
        Err(Stop::Ended(ending)) => Ok((task_end(ending), Vec::new(alloc))),
        Err(Stop::Memory) => Err(Memory),
    }
}
