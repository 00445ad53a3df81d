//! The units and sites of tasks, in the order of the text.

ghost use Rattle.std.specs.Prelude.{◌≡◌, ◌+◌, OnOk, map};
ghost use Rattle.lowering_draft.specs.Emission.TaskUnits.{with_block_tasks, with_stmt_tasks};
ghost use Rattle.lowering_draft.specs.Emission.Units.{capped, task_code, task_tree, with_task, with_tasks, with_unit};
ghost use Rattle.os_ast.specs.Views.{item_tree, stmt_tree, stmts_tree};
ghost use Rattle.lowering_relation.specs.Names.{told_at};
ghost use Rattle.os_ast.specs.declared.names.Owner.TheVariants as owner;
ghost use Rattle.lowering_relation.specs.Programs.{size_by};
ghost use Rattle.lowering_relation.specs.Tasks.{program_tasks};
ghost use Rattle.window_check_laws.specs.Sums.{stmt_slots};

use crate::units::{emit_task_body, is_main};
use lowering_draft::{Told, Units, captured_at, site_items, stmt_slots};
use os_ast::{Item, Owner, Stmt, TaskSite};
use os_code::Site;
use os_io::{List, Memory};
use std::alloc::Global;

/// Adds the unit and the site of each task of `main`.
#[tactic(auto, using(crate::proofs::Rules::tasks))]
pub(crate) fn add_program_tasks(
    alloc: Global,
    made: &mut Units,
    told: &Told<'_>,
    captured: &[List<u32>],
    items: &List<Item>,
) -> Result<(), Memory>
    ensures { OnOk result (made.new ≡ with_tasks (told_at told.now.names.now) captured.now (program_tasks (map item_tree items.now)) made.old) }
{
    for item in items.as_slice() {
        if let Item::Function(function) = item {
            if is_main(function) {
                return add_all_tasks(alloc, made, told, captured, &function.body);
            }
        }
    }
    Ok(())
}

/// Adds the unit and the site of each task in a statement.
#[cycle(tasks)]
#[tactic(auto, using(crate::proofs::Rules::tasks))]
fn add_tasks(
    alloc: Global,
    made: &mut Units,
    told: &Told<'_>,
    captured: &[List<u32>],
    stmt: &Stmt,
) -> Result<(), Memory>
    ensures { OnOk result (made.new ≡ with_stmt_tasks (told_at told.now.names.now) captured.now (stmt_tree stmt.now) made.old) }
{
    match stmt {
        Stmt::Block(stmts) => add_all_tasks(alloc, made, told, captured, stmts),
        Stmt::If(_, first, None) => add_tasks(alloc, made, told, captured, first),
        Stmt::If(_, first, Some(second)) => {
            add_tasks(alloc, made, told, captured, first)?;
            add_tasks(alloc, made, told, captured, second)
        }
        Stmt::While(_, body) => add_tasks(alloc, made, told, captured, body),
        Stmt::For(_, body) => add_tasks(alloc, made, told, captured, body),
        Stmt::Task(site) => add_task(alloc, made, told, captured, site),
        Stmt::Empty
        | Stmt::Declare(_, _)
        | Stmt::Change(_)
        | Stmt::Call(_)
        | Stmt::Break(_)
        | Stmt::Continue(_)
        | Stmt::Return(_, _)
        | Stmt::Tick(_)
        | Stmt::Taskwait(_) => Ok(()),
    }
}

/// Adds the unit and the site of each task in the statements of a block.
#[cycle(tasks)]
#[tactic(auto, using(crate::proofs::Rules::tasks))]
fn add_all_tasks(
    alloc: Global,
    made: &mut Units,
    told: &Told<'_>,
    captured: &[List<u32>],
    stmts: &List<Stmt>,
) -> Result<(), Memory>
    ensures { OnOk result (made.new ≡ with_block_tasks (told_at told.now.names.now) captured.now (stmts_tree stmts.now) made.old) }
{
    for stmt in stmts.as_slice() {
        add_tasks(alloc, made, told, captured, stmt)?;
    }
    Ok(())
}

/// Adds a task's unit, whose first slots are what it captures, and its site.
fn add_task(
    alloc: Global,
    made: &mut Units,
    told: &Told<'_>,
    captured: &[List<u32>],
    site: &TaskSite,
) -> Result<(), Memory>
    ensures { OnOk result (made.new ≡ with_task (told_at told.now.names.now) captured.now (task_tree site.now) made.old) }
{
    // 2^32 units wouldn't fit into memory.
    let unit = u32::try_from(made.units.len()).map_err(|_| Memory)?;
    let captured = List::from_slice(alloc, captured_at(captured, made.sites.len()))?;
    let items = site_items(alloc, told, &site.clauses)?;
    add_unit(made, told, captured.len(), &site.body)?;
    made.sites.push(Site {
        unit,
        line: site.mark.line,
        captured,
        items,
    })
}

/// Adds the unit of a task that captures `captured` scalars.
fn add_unit(made: &mut Units, told: &Told<'_>, captured: usize, body: &Stmt) -> Result<(), Memory>
    ensures { OnOk result (made.new ≡ with_unit (task_code (told_at told.now.names.now) (stmt_tree body.now)) captured
        (capped (captured + stmt_slots owner.OfTask (size_by (told_at told.now.names.now)) (stmt_tree body.now))) made.old) }
{
    let start = made.draft.instrs.len();
    emit_task_body(&mut made.draft, told, body)?;
    // 2^32 captured scalars wouldn't fit into memory.
    let args = u32::try_from(captured).map_err(|_| Memory)?;
    let slots = args.saturating_add(stmt_slots(told, Owner::OfTask, body));
    made.add(start, args, slots)
}
