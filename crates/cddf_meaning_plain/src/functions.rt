//! Calls of functions.

ghost use Rattle.std.specs.Prelude.{◌≤◌, map};
ghost use Rattle.cddf_meaning.specs.Functions.{call_function, file_of};
ghost use Rattle.os_ast.specs.Views.{function_tree, item_tree};
ghost use Rattle.cddf_meaning_plain_state.specs.Stops.{Evaluates};

use crate::run::stmts;
use cddf_meaning_plain_state::Stop;
use cddf_meaning_plain_state::functions::{function_at, result_of, take_turn, with_params};
use cddf_meaning_plain_tasks::Around;
use os_ast::{Function, Item};
use std::alloc::Global;

/// Calls the function at a place of the file.
#[cycle(meaning)]
pub(crate) fn call_function(
    alloc: Global,
    file: &[Item],
    place: usize,
    args: &[i32],
    turns: &mut u64,
) -> Result<i32, Stop>
    ensures gives { Evaluates result turns.new ((file_of (map item_tree file.now)).calls place args.now turns.old) }
    ensures fewer { turns.new ≤ turns.old }
{
    match function_at(file, place) {
        None => Err(Stop::over_budget()),
        Some(function) => entered(alloc, &file[..place], function, args, turns),
    }
}

/// Takes the turn of a call, and runs the body of a function that stands behind these items of the file.
#[cycle(meaning)]
fn entered(
    alloc: Global,
    file: &[Item],
    function: &Function,
    args: &[i32],
    turns: &mut u64,
) -> Result<i32, Stop>
    ensures gives { Evaluates result turns.new (call_function (file_of (map item_tree file.now)) (function_tree function.now) args.now turns.old) }
    ensures fewer { turns.new ≤ turns.old }
{
    take_turn(turns)?;
    let mut state = with_params(alloc, function.params.list(), args)?;
    let around = Around {
        file,
        control: None,
    };
    let flow = stmts(alloc, &around, &function.body, &mut state, turns)?;
    Ok(result_of(flow))
}
