//! What stands round a task's body.

ghost use Rattle.std.specs.Prelude.{◌≡◌, IfOk, OnOk, drop, take};
ghost use Rattle.cddf_meaning.specs.Body.{bind_captured, bind_items, bound_round, item_lists};
ghost use Rattle.cddf_meaning.specs.BodyState as states;
ghost use Rattle.cddf_meaning_plain_tasks.specs.Sought.{task_of};

use crate::found_task::FoundTask;
use cddf_meaning::{TypedName, Variable};
use cddf_meaning_plain_state::BodyState;
use flow_core_laws::{Activation, Claim};
use os_io::{List, Memory};
use std::alloc::Global;

/// The first `horizon` numbers of an input, or all where there are fewer, and the others.
fn window(inputs: &[i32], horizon: u32) -> (&[i32], &[i32])
    ensures first { result.0.now ≡ take horizon inputs.now }
    ensures others { result.1.now ≡ drop horizon inputs.now }
{
    let horizon = (horizon as usize).min(inputs.len());
    inputs.split_at(horizon)
}

/// The elements of each item: those of the inputs, and zeros for what the task will write.
fn item_lists(alloc: Global, claims: &[Claim], inputs: &[i32]) -> Result<Vec<List<i32>>, Memory>
    ensures { IfOk result (λ items. items.items ≡ item_lists claims.now inputs.now) }
{
    let mut items = Vec::new(alloc);
    let mut inputs = inputs;
    for claim in claims {
        let item = if claim.write {
            List::filled(alloc, 0, claim.horizon as usize)?
        } else {
            let (first, others) = window(inputs, claim.horizon);
            inputs = others;
            List::from_slice(alloc, first)?
        };
        items.push(item)?;
    }
    Ok(items)
}

/// Declares captured scalars, with their values.
fn bind_captured(state: &mut BodyState, names: &[TypedName], values: &[i32]) -> Result<(), Memory>
    ensures { OnOk result (state.new ≡ record state.old { bound = bind_captured names.now values.now state.old.bound }) }
{
    for (place, name) in names.iter().enumerate() {
        let number = match values.get(place) {
            Some(number) => *number,
            None => 0,
        };
        state.declare(name.id, name.unsigned, Variable::Scalar(number))?;
    }
    Ok(())
}

/// Declares the items, by their numbers.
fn bind_items(state: &mut BodyState, names: &[TypedName]) -> Result<(), Memory>
    ensures { OnOk result (state.new ≡ record state.old { bound = bind_items 0 names.now state.old.bound }) }
{
    for (item, name) in names.iter().enumerate() {
        state.declare(name.id, name.unsigned, Variable::Item(item))?;
    }
    Ok(())
}

/// The state round the body of a task, for the elements of its input items, one item after another.
pub fn state_round(
    alloc: Global,
    task: &FoundTask<'_>,
    activation: &Activation,
    inputs: &[i32],
) -> Result<BodyState, Memory>
    ensures { IfOk result (λ s. s ≡ states.state_of (bound_round (task_of task.now) activation.now.captured) (item_lists activation.now.claims inputs.now)) }
{
    let items = item_lists(alloc, activation.claims.as_slice(), inputs)?;
    let mut state = BodyState::new(alloc, items);
    bind_captured(
        &mut state,
        task.captured.as_slice(),
        activation.captured.as_slice(),
    )?;
    bind_items(&mut state, task.items.as_slice())?;
    Ok(state)
}
