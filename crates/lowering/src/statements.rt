//! Statements. Behind a statement the code goes on at the next place, or at a label.

ghost use Rattle.std.specs.Prelude.{◌≡◌, IfOk, OnOk, map, option_map};
ghost use Rattle.lowering_draft.specs.Draft.{next_label, with_instr, with_label, with_place, with_spawn};
ghost use Rattle.lowering_draft.specs.Emission.Changes.{change_code};
ghost use Rattle.lowering_draft.specs.Emission.Declarators.{start_code};
ghost use Rattle.lowering_draft.specs.Emission.Tasks.{items_code};
ghost use Rattle.lowering_draft.specs.Emission.Statements.{begin_code, block_code, closed, end_of, jump_on, next_behind, opened, stmt_code, test_code};
ghost use Rattle.os_ast.specs.ClauseMembers.{members};
ghost use Rattle.os_ast.specs.Views.{change_tree, clause_tree, expr_tree, start_tree, stmt_tree, stmts_tree};
ghost use Rattle.lowering_relation.specs.Names.{told_at};

use crate::items::{emit_items, emit_tick};
use lowering_draft::{Draft, Exits, Label, Told};
use lowering_expressions::{
    emit_call, emit_change, emit_condition, emit_declarators, emit_expr, emit_start,
};
use os_ast::{Change, Clause, Expr, Head, Stmt};
use os_code::Instr;
use os_io::{List, Memory};

/// Emits a statement. Behind it the code goes on at `next`, or at the next place where that is none.
#[cycle(statements)]
#[tactic(auto, using(crate::proofs::Rules::statements))]
pub(crate) fn emit_stmt(
    draft: &mut Draft,
    told: &Told<'_>,
    stmt: &Stmt,
    exits: Exits,
    next: Option<Label>,
) -> Result<(), Memory>
    ensures { OnOk result (draft.new ≡ stmt_code (told_at told.now.names.now) (stmt_tree stmt.now) exits next draft.old) }
{
    match stmt {
        Stmt::Block(stmts) => emit_block(draft, told, stmts, exits, next),
        Stmt::If(condition, first, None) => {
            let end = open(draft, next)?;
            emit_condition(draft, told, condition, end)?;
            emit_stmt(draft, told, first, exits, next)?;
            close(draft, next, end)
        }
        Stmt::If(condition, first, Some(second)) => {
            let end = open(draft, next)?;
            let otherwise = draft.label()?;
            emit_condition(draft, told, condition, otherwise)?;
            emit_stmt(draft, told, first, exits, Some(end))?;
            draft.place(otherwise)?;
            emit_stmt(draft, told, second, exits, next)?;
            close(draft, next, end)
        }
        Stmt::While(condition, body) => {
            let end = open(draft, next)?;
            let again = begin(draft)?;
            emit_condition(draft, told, condition, end)?;
            emit_stmt(draft, told, body, exits.in_loop(end, again), Some(again))?;
            close(draft, next, end)
        }
        Stmt::For(head, body) => {
            let end = open(draft, next)?;
            let again = begin_for(draft, told, head, end)?;
            match &head.step {
                None => {
                    emit_stmt(draft, told, body, exits.in_loop(end, again), Some(again))?;
                    close(draft, next, end)
                }
                Some(change) => {
                    let step = draft.label()?;
                    emit_stmt(draft, told, body, exits.in_loop(end, step), None)?;
                    emit_step(draft, told, change, step, again)?;
                    close(draft, next, end)
                }
            }
        }
        Stmt::Declare(_, declarators) => {
            emit_declarators(draft, told, declarators)?;
            emit_next(draft, next)
        }
        Stmt::Change(change) => {
            emit_change(draft, told, change)?;
            emit_next(draft, next)
        }
        Stmt::Call(call) => {
            emit_call(draft, told, call)?;
            draft.emit(Instr::Drop)?;
            emit_next(draft, next)
        }
        Stmt::Break(_) => draft.emit(Instr::Jump(exits.broke.number)),
        Stmt::Continue(_) => draft.emit(Instr::Jump(exits.continued.number)),
        Stmt::Return(_, value) => {
            emit_expr(draft, told, value)?;
            draft.emit(exits.leaves)
        }
        Stmt::Task(site) => emit_task(draft, told, &site.clauses, next),
        Stmt::Tick(tick) => {
            emit_tick(draft, told, tick)?;
            emit_next(draft, next)
        }
        Stmt::Empty => emit_next(draft, next),
        Stmt::Taskwait(_) => emit_next(draft, next),
    }
}

/// The statements of a block. The last one goes on where the block does.
#[cycle(statements)]
#[tactic(auto, using(crate::proofs::Rules::statements))]
pub(crate) fn emit_block(
    draft: &mut Draft,
    told: &Told<'_>,
    stmts: &List<Stmt>,
    exits: Exits,
    next: Option<Label>,
) -> Result<(), Memory>
    ensures { OnOk result (draft.new ≡ block_code (told_at told.now.names.now) (stmts_tree stmts.now) exits next draft.old) }
{
    let mut behind = stmts.len();
    if behind == 0 {
        return emit_next(draft, next);
    }
    for stmt in stmts.as_slice() {
        behind -= 1;
        emit_stmt(draft, told, stmt, exits, next_behind(behind, next))?;
    }
    Ok(())
}

/// Where the code goes on behind a statement of a block, by how many stand behind it.
fn next_behind(behind: usize, next: Option<Label>) -> Option<Label>
    ensures { result ≡ next_behind behind next }
{
    if behind == 0 { next } else { None }
}

/// A task's pragma: its items, and its activation.
fn emit_task(
    draft: &mut Draft,
    told: &Told<'_>,
    clauses: &List<Clause>,
    next: Option<Label>,
) -> Result<(), Memory>
    ensures { OnOk result (draft.new ≡ jump_on next (with_spawn (items_code (told_at told.now.names.now) (members (map clause_tree clauses.now)) draft.old))) }
{
    emit_items(draft, told, clauses)?;
    draft.spawn()?;
    emit_next(draft, next)
}

/// Where the code is to go on at a label, it jumps there; else it goes on at the next place.
fn emit_next(draft: &mut Draft, next: Option<Label>) -> Result<(), Memory>
    ensures { OnOk result (draft.new ≡ jump_on next draft.old) }
{
    match next {
        None => Ok(()),
        Some(label) => draft.emit(Instr::Jump(label.number)),
    }
}

/// The label of where the code goes on: the given one, or a new one.
fn open(draft: &mut Draft, next: Option<Label>) -> Result<Label, Memory>
    ensures { IfOk result (λ end. (end ≡ end_of next draft.old) × (draft.new ≡ opened next draft.old)) }
{
    match next {
        None => draft.label(),
        Some(end) => Ok(end),
    }
}

/// Places that label, where it is a new one.
fn close(draft: &mut Draft, next: Option<Label>, end: Label) -> Result<(), Memory>
    ensures { OnOk result (draft.new ≡ closed next end draft.old) }
{
    match next {
        None => draft.place(end),
        Some(_) => Ok(()),
    }
}

/// The head of a `for` but for its step.
fn begin_for(draft: &mut Draft, told: &Told<'_>, head: &Head, end: Label) -> Result<Label, Memory>
    ensures { IfOk result (λ again. (again ≡ next_label (start_code (told_at told.now.names.now) (start_tree head.now.start) draft.old))
        × (draft.new ≡ begin_code again (test_code (told_at told.now.names.now) (option_map expr_tree head.now.test) end)
        (with_label (start_code (told_at told.now.names.now) (start_tree head.now.start) draft.old)))) }
{
    emit_start(draft, told, &head.start)?;
    let again = begin(draft)?;
    emit_test(draft, told, &head.test, end)?;
    Ok(again)
}

/// The step of a `for`, behind its body.
fn emit_step(
    draft: &mut Draft,
    told: &Told<'_>,
    change: &Change,
    step: Label,
    again: Label,
) -> Result<(), Memory>
    ensures { OnOk result (draft.new ≡ with_instr (change_code (told_at told.now.names.now) (change_tree change.now) (with_place draft.old step))
        (Instr.Jump again.number)) }
{
    draft.place(step)?;
    emit_change(draft, told, change)?;
    draft.emit(Instr::Jump(again.number))
}

/// The beginning of a loop, with the turn that it takes.
fn begin(draft: &mut Draft) -> Result<Label, Memory>
    ensures { IfOk result (λ again. (again ≡ next_label draft.old) × (draft.new ≡ with_instr (with_place (with_label draft.old) again) Instr.Turn)) }
{
    let again = draft.label()?;
    draft.place(again)?;
    draft.emit(Instr::Turn)?;
    Ok(again)
}

/// The test of a loop. Without one it goes on.
fn emit_test(
    draft: &mut Draft,
    told: &Told<'_>,
    test: &Option<Expr>,
    end: Label,
) -> Result<(), Memory>
    ensures { OnOk result (draft.new ≡ test_code (told_at told.now.names.now) (option_map expr_tree test.now) end draft.old) }
{
    match test {
        None => Ok(()),
        Some(condition) => emit_condition(draft, told, condition, end),
    }
}
