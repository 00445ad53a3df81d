//! The units of functions and of tasks: a body each, and behind it what it does where it falls off its end.

ghost use Rattle.std.specs.Prelude.{◌≡◌, ◌==◌, OnOk, map};
ghost use Rattle.lowering_draft.specs.Emission.Units.{
  exits_of,
  function_code,
  main_code,
  task_code,
  with_functions,
  with_item,
  with_main,
  with_plain,
};
ghost use Rattle.os_ast.specs.Names.{main_id};
ghost use Rattle.os_ast.specs.Views.{function_tree, item_tree, stmt_tree, stmts_tree};
ghost use Rattle.lowering_relation.specs.Names.{told_at};

use crate::statements::{emit_block, emit_stmt};
use lowering_draft::{Draft, Exits, Label, Told, Units, stmts_slots};
use os_ast::{Function, Item, Owner, Stmt};
use os_code::Instr;
use os_io::{List, Memory};
use os_lexer::names::MAIN;

/// Adds the units of all functions, in the order of the text.
#[tactic(auto, using(crate::proofs::Rules::units))]
pub(crate) fn add_functions(
    made: &mut Units,
    told: &Told<'_>,
    items: &List<Item>,
) -> Result<(), Memory>
    ensures { OnOk result (made.new ≡ with_functions (told_at told.now.names.now) (map item_tree items.now) made.old) }
{
    for item in items.as_slice() {
        add_item(made, told, item)?;
    }
    Ok(())
}

/// Adds the unit of an item, where it is a function.
fn add_item(made: &mut Units, told: &Told<'_>, item: &Item) -> Result<(), Memory>
    ensures { OnOk result (made.new ≡ with_item (told_at told.now.names.now) (item_tree item.now) made.old) }
{
    match item {
        Item::Constant(_) => Ok(()),
        Item::Function(function) => {
            if is_main(function) {
                add_main(made, told, function)
            } else {
                add_function(made, told, function)
            }
        }
    }
}

/// Whether a function is `main`.
pub(crate) fn is_main(function: &Function) -> bool
    ensures { result ≡ (function.now.name.id == main_id) }
{
    function.name.id == MAIN
}

/// Adds the unit of a function, whose parameters are its first slots.
fn add_function(made: &mut Units, told: &Told<'_>, function: &Function) -> Result<(), Memory>
    ensures { OnOk result (made.new ≡ with_plain (told_at told.now.names.now) (function_tree function.now) made.old) }
{
    let start = made.draft.instrs.len();
    emit_function(&mut made.draft, told, &function.body)?;
    // 2^32 parameters wouldn't fit into memory.
    let args = u32::try_from(function.params.list().len()).map_err(|_| Memory)?;
    let slots = args.saturating_add(stmts_slots(told, Owner::OfFunction, &function.body));
    made.add(start, args, slots)
}

/// Adds the unit of `main`, whose slot 0 has the length of the input.
fn add_main(made: &mut Units, told: &Told<'_>, function: &Function) -> Result<(), Memory>
    ensures { OnOk result (made.new ≡ with_main (told_at told.now.names.now) (function_tree function.now) made.old) }
{
    let start = made.draft.instrs.len();
    // 2^32 units wouldn't fit into memory.
    let number = u32::try_from(made.units.len()).map_err(|_| Memory)?;
    emit_main(&mut made.draft, told, &function.body)?;
    let slots = stmts_slots(told, Owner::OfMain, &function.body).saturating_add(1);
    made.add(start, 1, slots)?;
    made.main = number;
    Ok(())
}

/// A function's code: behind its body it returns 0.
fn emit_function(draft: &mut Draft, told: &Told<'_>, body: &List<Stmt>) -> Result<(), Memory>
    ensures { OnOk result (draft.new ≡ function_code (told_at told.now.names.now) (stmts_tree body.now) draft.old) }
{
    let end = draft.label()?;
    emit_block(draft, told, body, exits_of(end, Instr::Return), None)?;
    draft.place(end)?;
    draft.emit(Instr::Push(0))?;
    draft.emit(Instr::Return)
}

/// The code of `main`, which ends behind its body.
fn emit_main(draft: &mut Draft, told: &Told<'_>, body: &List<Stmt>) -> Result<(), Memory>
    ensures { OnOk result (draft.new ≡ main_code (told_at told.now.names.now) (stmts_tree body.now) draft.old) }
{
    let end = draft.label()?;
    emit_block(draft, told, body, exits_of(end, Instr::End), None)?;
    draft.place(end)?;
    draft.emit(Instr::End)
}

/// The code of a task, which ends behind its body.
pub(crate) fn emit_task_body(draft: &mut Draft, told: &Told<'_>, body: &Stmt) -> Result<(), Memory>
    ensures { OnOk result (draft.new ≡ task_code (told_at told.now.names.now) (stmt_tree body.now) draft.old) }
{
    let end = draft.label()?;
    emit_stmt(draft, told, body, exits_of(end, Instr::End), None)?;
    draft.place(end)?;
    draft.emit(Instr::End)
}

/// `break` and `continue` outside loops go to the end of the body.
fn exits_of(end: Label, leaves: Instr) -> Exits
    ensures { result ≡ exits_of end leaves }
{
    Exits {
        broke: end,
        continued: end,
        leaves,
    }
}
