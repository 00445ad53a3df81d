//! What a change stores.

ghost use Rattle.std.specs.Prelude.{◌≡◌, Ok, false, map, pos};
ghost use Rattle.cddf_meaning.specs.Answers.{and_then};
ghost use Rattle.cddf_meaning.specs.Functions.{file_of};
ghost use Rattle.cddf_meaning.specs.Operators as operators;
ghost use Rattle.cddf_meaning.specs.Operators.{binary_answer};
ghost use Rattle.cddf_meaning.specs.Run.{after_store, assigned, old_value};
ghost use Rattle.os_ast.specs.Views.{item_tree};
ghost use Rattle.cddf_meaning_plain_state.specs.Stops.{Comes, Now};

use crate::body_state::BodyState;
use crate::names::scalar;
use crate::operators::binary;
use crate::stop::Stop;
use c_int::Types;
use cddf_meaning::Aim;
use cddf_meaning::operators::step_operator;
use os_ast::{Assign, Item, Mark, Step};

/// The value of a target before its change.
fn old_value(file: &[Item], state: &BodyState, aim: Aim) -> Result<i32, Stop>
    ensures { Comes result (Ok (old_value (file_of (map item_tree file.now)) state.now aim)) }
{
    match aim {
        Aim::Name(id) => scalar(file, state, id),
        Aim::Element(id, place) => Ok(state.element(id, place)),
    }
}

/// What is stored where the right side has this value, by the types of the target and of the right side.
fn assigned(
    file: &[Item],
    state: &BodyState,
    aim: Aim,
    assign: Assign,
    line: u32,
    types: Types,
    right: i32,
) -> Result<i32, Stop>
    ensures { Comes result (assigned assign line types.left types.right (old_value (file_of (map item_tree file.now)) state.now aim) right) }
{
    match assign {
        Assign::Plain => Ok(right),
        Assign::With(operator) => {
            binary(operator, line, types, old_value(file, state, aim)?, right)
        }
    }
}

/// Stores what an assignment gives where its right side has this value, by the types of the target and of the right side.
pub fn assign(
    file: &[Item],
    operator: Assign,
    mark: Mark,
    types: Types,
    aim: Aim,
    right: i32,
    state: &mut BodyState,
) -> Result<(), Stop>
    ensures { Now result state.new state.old
        (and_then (assigned operator mark.line types.left types.right (old_value (file_of (map item_tree file.now)) state.old aim) right)
        (λ v. Ok (after_store state.old aim v))) }
{
    let number = assigned(file, state, aim, operator, mark.line, types, right)?;
    state.write(aim, number);
    Ok(())
}

/// Adds 1 to a target of this type, or takes 1 from it.
pub fn take_step(
    file: &[Item],
    step: Step,
    mark: Mark,
    unsigned: bool,
    aim: Aim,
    state: &mut BodyState,
) -> Result<(), Stop>
    ensures { Now result state.new state.old (and_then (binary_answer (operators.step_operator step) mark.line unsigned false
        (old_value (file_of (map item_tree file.now)) state.old aim) (pos 1)) (λ v. Ok (after_store state.old aim v))) }
{
    let old = old_value(file, state, aim)?;
    let types = Types {
        left: unsigned,
        right: false,
    };
    let number = binary(step_operator(step), mark.line, types, old, 1)?;
    state.write(aim, number);
    Ok(())
}
