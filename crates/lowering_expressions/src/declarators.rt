//! Declarations: each sets its variable, each time.

ghost use Rattle.std.specs.Prelude.{◌≡◌, OnOk, map, option_map};
ghost use Rattle.lowering_draft.specs.Emission.Declarators.{declarators_code, declared_code, scalar_code, start_code, window_code, zeroed_code};
ghost use Rattle.os_ast.specs.Views.{declarator_tree, expr_tree, index_tree, start_tree};
ghost use Rattle.lowering_relation.specs.Names.{told_at};

use crate::changes::emit_change;
use crate::expressions::emit_expr;
use crate::mentions::mentions;
use lowering_draft::{Draft, Told};
use os_ast::{Declarator, Expr, Index, Start, What};
use os_code::Instr;
use os_io::{List, Memory};

/// Adds the code of what stands before the first `;` in the head of a `for`.
pub fn emit_start(draft: &mut Draft, told: &Told<'_>, start: &Start) -> Result<(), Memory>
    ensures { OnOk result (draft.new ≡ start_code (told_at told.now.names.now) (start_tree start.now) draft.old) }
{
    match start {
        Start::Empty => Ok(()),
        Start::Declare(_, declarators) => emit_declarators(draft, told, declarators),
        Start::Change(change) => emit_change(draft, told, change),
    }
}

/// Adds the code of declarators, one after another.
#[tactic(auto, using(crate::proofs::Rules::declarators))]
pub fn emit_declarators(
    draft: &mut Draft,
    told: &Told<'_>,
    declarators: &List<Declarator>,
) -> Result<(), Memory>
    ensures { OnOk result (draft.new ≡ declarators_code (told_at told.now.names.now) (map declarator_tree declarators.now) draft.old) }
{
    for declarator in declarators.as_slice() {
        emit_declarator(draft, told, declarator)?;
    }
    Ok(())
}

/// A declarator. Streams are there from the start.
fn emit_declarator(
    draft: &mut Draft,
    told: &Told<'_>,
    declarator: &Declarator,
) -> Result<(), Memory>
    ensures { OnOk result (draft.new
        ≡ declared_code (told_at told.now.names.now) (told_at told.now.names.now declarator.now.name.mark.place).what
        (declarator_tree declarator.now) draft.old) }
{
    match told.at(declarator.name.mark.place).what {
        What::Scalar(slot) => {
            emit_scalar(draft, told, declarator.name.id, slot, &declarator.first)
        }
        What::Array { first, size } => draft.emit(Instr::Zero { first, count: size }),
        What::Window(slot) => emit_window(draft, told, slot, &declarator.size),
        What::Constant(_)
        | What::Function(_)
        | What::Stream { .. }
        | What::Element(_)
        | What::View(_) => Ok(()),
    }
}

/// A scalar: its first value, or 0. It is 0 while its first value is evaluated.
fn emit_scalar(
    draft: &mut Draft,
    told: &Told<'_>,
    id: u32,
    slot: u32,
    first: &Option<Expr>,
) -> Result<(), Memory>
    ensures { OnOk result (draft.new ≡ scalar_code (told_at told.now.names.now) id slot (option_map expr_tree first.now) draft.old) }
{
    match first {
        None => emit_zero(draft, slot),
        Some(value) => {
            if mentions(value, id) {
                emit_zero(draft, slot)?;
            }
            emit_expr(draft, told, value)?;
            draft.emit(Instr::Store(slot))
        }
    }
}

/// Sets a slot to 0.
fn emit_zero(draft: &mut Draft, slot: u32) -> Result<(), Memory>
    ensures { OnOk result (draft.new ≡ zeroed_code slot draft.old) }
{
    draft.emit(Instr::Push(0))?;
    draft.emit(Instr::Store(slot))
}

/// A window: its size is kept in its slot.
fn emit_window(
    draft: &mut Draft,
    told: &Told<'_>,
    slot: u32,
    size: &Option<Index>,
) -> Result<(), Memory>
    ensures { OnOk result (draft.new ≡ window_code (told_at told.now.names.now) slot (option_map index_tree size.now) draft.old) }
{
    match size {
        None => Ok(()),
        Some(index) => {
            emit_expr(draft, told, &index.value)?;
            draft.emit(Instr::Window {
                slot,
                line: index.mark.line,
            })
        }
    }
}
