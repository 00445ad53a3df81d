//! Changes of variables.

ghost use Rattle.std.specs.Prelude.{◌≤◌, map};
ghost use Rattle.cddf_meaning.specs.Functions.{file_of};
ghost use Rattle.cddf_meaning.specs.Run.{aim_at, run_change};
ghost use Rattle.os_ast.specs.Views.{change_tree, item_tree, target_tree};
ghost use Rattle.cddf_meaning_plain_state.specs.Stops.{Evaluates, GoesOn};

use crate::value::value;
use c_int::Types;
use cddf_meaning::Aim;
use cddf_meaning_plain_state::changes::{assign, take_step};
use cddf_meaning_plain_state::typing::{target_type, type_of};
use cddf_meaning_plain_state::{BodyState, Stop};
use os_ast::{Change, Item, Target};
use std::alloc::Global;

/// The target of a change, with its index checked.
#[cycle(meaning)]
fn aim_at(
    alloc: Global,
    file: &[Item],
    target: &Target,
    state: &BodyState,
    turns: &mut u64,
) -> Result<Aim, Stop>
    ensures aims { Evaluates result turns.new (aim_at (file_of (map item_tree file.now)) (target_tree target.now) state.now turns.old) }
    ensures fewer { turns.new ≤ turns.old }
{
    let id = target.name.id;
    match &target.index {
        None => Ok(Aim::Name(id)),
        Some(index) => {
            let number = value(alloc, file, &index.value, state, turns)?;
            let place = state.checked(id, index.mark.line, number)?;
            Ok(Aim::Element(id, place))
        }
    }
}

/// Evaluates an assignment, a `++` or a `--`, and stores the new value in its target.
#[cycle(meaning)]
pub(crate) fn change(
    alloc: Global,
    file: &[Item],
    change: &Change,
    state: &mut BodyState,
    turns: &mut u64,
) -> Result<(), Stop>
    ensures goes_on { GoesOn result state.new turns.new (run_change (file_of (map item_tree file.now)) (change_tree change.now) state.old turns.old) }
    ensures fewer { turns.new ≤ turns.old }
{
    match change {
        Change::Set(target, operator, mark, expr) => {
            let aim = aim_at(alloc, file, target, state, turns)?;
            let right = value(alloc, file, expr, state, turns)?;
            let types = Types {
                left: target_type(file, state, target),
                right: type_of(file, state, expr),
            };
            assign(file, *operator, *mark, types, aim, right, state)
        }
        Change::After(target, step, mark) | Change::Before(target, step, mark) => {
            let aim = aim_at(alloc, file, target, state, turns)?;
            let unsigned = target_type(file, state, target);
            take_step(file, *step, *mark, unsigned, aim, state)
        }
    }
}
