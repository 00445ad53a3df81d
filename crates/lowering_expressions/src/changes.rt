//! Changes of a target: its index is checked, then the right side is evaluated, then it is stored.

ghost use Rattle.std.specs.Prelude.{◌≡◌, IfOk, OnOk, false, true};
ghost use Rattle.cddf_meaning.specs.Operators.{step_operator};
ghost use Rattle.lowering_draft.specs.Emission.Changes.{aim_code, change_code, changed_code, operated_code, plain_code, store_code, stepped_code};
ghost use Rattle.os_ast.specs.Views.{change_tree, expr_tree, target_tree};
ghost use Rattle.lowering_relation.specs.Changes.{target_by};
ghost use Rattle.lowering_relation.specs.Names.{told_at};

use crate::expressions::emit_expr;
use crate::quiet::is_quiet;
use c_int::Types;
use cddf_meaning::operators::step_operator;
use lowering_draft::{
    Draft, Told, checking_at, emit_aiming, emit_element, emit_operation, emit_reading, storing,
    storing_at,
};
use os_ast::{Assign, Binary, Change, Expr, Mark, Step, Target};
use os_code::Instr;
use os_io::Memory;

/// Adds the code of a change: of an assignment, or of `++` and `--`.
pub fn emit_change(draft: &mut Draft, told: &Told<'_>, change: &Change) -> Result<(), Memory>
    ensures { OnOk result (draft.new ≡ change_code (told_at told.now.names.now) (change_tree change.now) draft.old) }
{
    match change {
        Change::Set(target, assign, mark, value) => match assign {
            Assign::Plain => emit_plain(draft, told, target, value),
            Assign::With(operator) => emit_assign(draft, told, target, *operator, *mark, value),
        },
        Change::After(target, step, mark) | Change::Before(target, step, mark) => {
            emit_step(draft, told, target, *step, *mark)
        }
    }
}

/// `target = value`. Where the value can neither trap nor take a turn, the store alone checks the index.
fn emit_plain(
    draft: &mut Draft,
    told: &Told<'_>,
    target: &Target,
    value: &Expr,
) -> Result<(), Memory>
    ensures { OnOk result (draft.new ≡ plain_code (told_at told.now.names.now) (target_tree target.now) (expr_tree value.now) draft.old) }
{
    match &target.index {
        Some(index) => {
            if is_quiet(value) {
                emit_expr(draft, told, &index.value)?;
            } else {
                emit_aim(draft, told, target)?;
            }
        }
        None => emit_aim(draft, told, target)?,
    }
    emit_expr(draft, told, value)?;
    emit_store(draft, told, target)
}

/// `target += value`, and so on.
fn emit_assign(
    draft: &mut Draft,
    told: &Told<'_>,
    target: &Target,
    operator: Binary,
    mark: Mark,
    value: &Expr,
) -> Result<(), Memory>
    ensures { OnOk result (draft.new ≡ changed_code (told_at told.now.names.now) true (target_tree target.now)
        (operated_code (told_at told.now.names.now) operator mark.line (target_by (told_at told.now.names.now) (target_tree target.now))
        (expr_tree value.now)) draft.old) }
{
    let left = emit_fetch(draft, told, target)?;
    let right = emit_expr(draft, told, value)?;
    emit_operation(draft, operator, Types { left, right }, mark.line)?;
    emit_store(draft, told, target)
}

/// `target++` and `target--`, before or behind. The 1 of a step is an `int`.
fn emit_step(
    draft: &mut Draft,
    told: &Told<'_>,
    target: &Target,
    step: Step,
    mark: Mark,
) -> Result<(), Memory>
    ensures { OnOk result (draft.new ≡ changed_code (told_at told.now.names.now) true (target_tree target.now)
        (stepped_code (step_operator step) mark.line (target_by (told_at told.now.names.now) (target_tree target.now))) draft.old) }
{
    let left = emit_fetch(draft, told, target)?;
    draft.emit(Instr::Push(1))?;
    let types = Types { left, right: false };
    emit_operation(draft, step_operator(step), types, mark.line)?;
    emit_store(draft, told, target)
}

/// What stands before a value that is to be stored: the index, checked.
fn emit_aim(draft: &mut Draft, told: &Told<'_>, target: &Target) -> Result<(), Memory>
    ensures { OnOk result (draft.new ≡ aim_code (told_at told.now.names.now) false (target_tree target.now) draft.old) }
{
    let what = told.at(target.name.mark.place).what;
    match &target.index {
        None => emit_aiming(draft, what),
        Some(index) => {
            emit_expr(draft, told, &index.value)?;
            draft.emit(checking_at(what, index.mark.line))
        }
    }
}

/// Emits the index, if there is one, and then the target's old value, whose reading checks the index. It tells whether the value is of the type `unsigned`.
fn emit_fetch(draft: &mut Draft, told: &Told<'_>, target: &Target) -> Result<bool, Memory>
    ensures { IfOk result (λ unsigned. (unsigned ≡ target_by (told_at told.now.names.now) (target_tree target.now))
        × (draft.new ≡ aim_code (told_at told.now.names.now) true (target_tree target.now) draft.old)) }
{
    let name = target.name;
    let named = told.at(name.mark.place);
    match &target.index {
        None => {
            emit_aiming(draft, named.what)?;
            emit_reading(draft, named.what, name.mark.line)?
        }
        Some(index) => {
            emit_expr(draft, told, &index.value)?;
            emit_element(draft, named.what, index.mark.line)?
        }
    }
    Ok(named.unsigned)
}

/// Stores what is on the stack, behind what stands before it.
fn emit_store(draft: &mut Draft, told: &Told<'_>, target: &Target) -> Result<(), Memory>
    ensures { OnOk result (draft.new ≡ store_code (told_at told.now.names.now) (target_tree target.now) draft.old) }
{
    let name = target.name;
    let what = told.at(name.mark.place).what;
    match &target.index {
        None => draft.emit(storing(what, name.mark.line)),
        Some(index) => draft.emit(storing_at(what, index.mark.line)),
    }
}
