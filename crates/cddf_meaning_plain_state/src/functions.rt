//! What a call takes and gives.

ghost use Rattle.std.specs.Option.{option_copied};
ghost use Rattle.std.specs.Prelude.{◌≡◌, ◌+◌, ◌<◌, ◌≤◌, IfErr, IfOk, IfSome, [], get_or, length, map, option_map, pos, slice_get};
ghost use Rattle.cddf_meaning.specs.Functions.{bind_params, result_of};
ghost use Rattle.cddf_meaning.specs.BodyState as states;
ghost use Rattle.cddf_meaning.specs.declared.ending.Ending.TheVariants as endings;
ghost use Rattle.os_ast.specs.Views.{function_tree, item_tree};
ghost use Rattle.cddf_meaning_plain_state.specs.FunctionTrees.{function_of};
ghost use Rattle.cddf_meaning_plain_state.specs.declared.stop.Stop.TheVariants as stops;

use crate::body_state::BodyState;
use crate::stop::Stop;
use cddf_meaning::{Flow, Variable};
use os_ast::{Function, Item, Param};
use os_io::Memory;
use std::alloc::Global;

/// Takes one of the turns that are left.
pub fn take_turn(turns: &mut u64) -> Result<(), Stop>
    ensures taken { IfOk result (λ _. turns.old ≡ turns.new + 1) }
    ensures none { IfErr result (λ stop. (stop ≡ stops.Ended endings.OverBudget) × (turns.old ≡ 0)) }
    ensures fewer { turns.new ≤ turns.old }
{
    if *turns == 0 {
        return Err(Stop::over_budget());
    }
    *turns -= 1;
    Ok(())
}

/// What a function gives where its body ended.
pub fn result_of(flow: Flow) -> i32
    ensures { result ≡ result_of flow }
{
    match flow {
        Flow::Returns(number) => number,
        Flow::GoesOn | Flow::Breaks | Flow::Continues => 0,
    }
}

/// The value of an argument; 0 where there is none.
fn argument(args: &[i32], place: usize) -> i32
    ensures { result ≡ get_or args.now place (pos 0) }
{
    match args.get(place) {
        Some(number) => *number,
        None => 0,
    }
}

/// The state of a function's body, with its parameters set. One that has no argument is 0.
pub fn with_params(alloc: Global, params: &[Param], args: &[i32]) -> Result<BodyState, Memory>
    ensures { IfOk result (λ s. s ≡ states.state_of (bind_params params.now args.now []) []) }
{
    let mut state = BodyState::new(alloc, Vec::new(alloc));
    for (place, param) in params.iter().enumerate() {
        state.declare(
            param.name.id,
            param.ty.is_unsigned(),
            Variable::Scalar(argument(args, place)),
        )?;
    }
    Ok(state)
}

/// The function at a place of the file; none where no item or another one stands there.
pub fn function_at(file: &[Item], place: usize) -> Option<&Function>
    ensures function { option_map function_tree (option_copied result) ≡ function_of (slice_get (map item_tree file.now) place) }
    ensures inside { IfSome result (λ _. place < length file.now) }
{
    match file.get(place) {
        Some(Item::Function(function)) => Some(function),
        Some(Item::Constant(_)) | None => None,
    }
}
