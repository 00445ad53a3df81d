//! What a statement does.

ghost use Rattle.std.specs.Option.{option_copied};
ghost use Rattle.std.specs.Prelude.{◌≤◌, map, option_map};
ghost use Rattle.cddf_meaning.specs.Functions.{file_of};
ghost use Rattle.cddf_meaning.specs.Run.{run, run_all, run_declarator, run_declarators, run_scalar, run_start, run_step, run_test};
ghost use Rattle.os_ast.specs.Trees as tree;
ghost use Rattle.os_ast.specs.Unsigned.{is_unsigned};
ghost use Rattle.os_ast.specs.Views.{change_tree, declarator_tree, expr_tree, item_tree, start_tree, stmt_tree, stmts_tree};
ghost use Rattle.cddf_meaning_plain.specs.Loops.{repeated};
ghost use Rattle.cddf_meaning_plain_state.specs.Stops.{GoesOn, Leaves, Tests};
ghost use Rattle.cddf_meaning_plain_tasks.specs.Arounds.{around_of};

use crate::changes::change;
use crate::streams::{task, tick};
use crate::value::{called, value};
use cddf_meaning::Flow;
use cddf_meaning_plain_state::functions::take_turn;
use cddf_meaning_plain_state::loops::step_behind;
use cddf_meaning_plain_state::operators::holds;
use cddf_meaning_plain_state::sizes::array_size;
use cddf_meaning_plain_state::{BodyState, Stop};
use cddf_meaning_plain_tasks::Around;
use os_ast::{Change, Declarator, Expr, Head, Item, Start, Stmt, Ty};
use os_io::List;
use std::alloc::Global;

/// Runs a statement or a declaration.
#[cycle(meaning)]
pub(crate) fn stmt(
    alloc: Global,
    around: &Around<'_>,
    stmt: &Stmt,
    state: &mut BodyState,
    turns: &mut u64,
) -> Result<Flow, Stop>
    ensures leaves { Leaves result state.new turns.new (run (around_of around.now) (stmt_tree stmt.now) state.old turns.old) }
    ensures fewer { turns.new ≤ turns.old }
{
    match stmt {
        Stmt::Empty | Stmt::Taskwait(_) => Ok(Flow::GoesOn),
        Stmt::Block(list) => block(alloc, around, list, state, turns),
        Stmt::Declare(ty, list) => {
            declarators(alloc, around, *ty, list, state, turns)?;
            Ok(Flow::GoesOn)
        }
        Stmt::Change(next) => {
            change(alloc, around.file, next, state, turns)?;
            Ok(Flow::GoesOn)
        }
        Stmt::Call(call) => {
            called(alloc, around.file, call, state, turns)?;
            Ok(Flow::GoesOn)
        }
        Stmt::If(condition, first, second) => {
            let chosen = value(alloc, around.file, condition, state, turns)?;
            if holds(chosen) {
                self::stmt(alloc, around, first, state, turns)
            } else {
                match second {
                    None => Ok(Flow::GoesOn),
                    Some(second) => self::stmt(alloc, around, second, state, turns),
                }
            }
        }
        Stmt::While(condition, body) => {
            repeat(alloc, around, Some(condition), body, None, state, turns)
        }
        Stmt::For(head, body) => for_loop(alloc, around, head, body, state, turns),
        Stmt::Break(_) => Ok(Flow::Breaks),
        Stmt::Continue(_) => Ok(Flow::Continues),
        Stmt::Return(_, expr) => {
            let number = value(alloc, around.file, expr, state, turns)?;
            Ok(Flow::Returns(number))
        }
        Stmt::Task(site) => {
            task(alloc, around, site, state, turns)?;
            Ok(Flow::GoesOn)
        }
        Stmt::Tick(site) => {
            tick(alloc, around.file, site, state, turns)?;
            Ok(Flow::GoesOn)
        }
    }
}

/// Runs the statements and declarations of a block, one after another, until one leaves it.
#[cycle(meaning)]
pub(crate) fn stmts(
    alloc: Global,
    around: &Around<'_>,
    list: &List<Stmt>,
    state: &mut BodyState,
    turns: &mut u64,
) -> Result<Flow, Stop>
    ensures leaves { Leaves result state.new turns.new (run_all (around_of around.now) (stmts_tree list.now) state.old turns.old) }
    ensures fewer { turns.new ≤ turns.old }
{
    for next in list.as_slice() {
        let flow = stmt(alloc, around, next, state, turns)?;
        if flow != Flow::GoesOn {
            return Ok(flow);
        }
    }
    Ok(Flow::GoesOn)
}

/// Runs a block. What was declared in it is gone behind it.
#[cycle(meaning)]
fn block(
    alloc: Global,
    around: &Around<'_>,
    list: &List<Stmt>,
    state: &mut BodyState,
    turns: &mut u64,
) -> Result<Flow, Stop>
    ensures leaves { Leaves result state.new turns.new (run (around_of around.now) (tree.Block (stmts_tree list.now)) state.old turns.old) }
    ensures fewer { turns.new ≤ turns.old }
{
    let outer = state.declared();
    let flow = stmts(alloc, around, list, state, turns)?;
    state.leave(outer);
    Ok(flow)
}

/// Runs a `for`: its start in a scope of its own, and the loop there.
#[cycle(meaning)]
fn for_loop(
    alloc: Global,
    around: &Around<'_>,
    head: &Head,
    body: &Stmt,
    state: &mut BodyState,
    turns: &mut u64,
) -> Result<Flow, Stop>
    ensures leaves { Leaves result state.new turns.new (run (around_of around.now) (tree.For (start_tree head.now.start) (option_map expr_tree head.now.test)
        (option_map change_tree head.now.step) (stmt_tree body.now)) state.old turns.old) }
    ensures fewer { turns.new ≤ turns.old }
{
    let outer = state.declared();
    start(alloc, around, &head.start, state, turns)?;
    let flow = repeat(
        alloc,
        around,
        head.test.as_ref(),
        body,
        head.step.as_ref(),
        state,
        turns,
    )?;
    state.leave(outer);
    Ok(flow)
}

/// Runs what stands before the first `;` of a `for`.
#[cycle(meaning)]
fn start(
    alloc: Global,
    around: &Around<'_>,
    start: &Start,
    state: &mut BodyState,
    turns: &mut u64,
) -> Result<(), Stop>
    ensures goes_on { GoesOn result state.new turns.new (run_start (around_of around.now) (start_tree start.now) state.old turns.old) }
    ensures fewer { turns.new ≤ turns.old }
{
    match start {
        Start::Empty => Ok(()),
        Start::Declare(ty, list) => declarators(alloc, around, *ty, list, state, turns),
        Start::Change(first) => change(alloc, around.file, first, state, turns),
    }
}

/// Takes a turn, tests, and runs the body and the step, over and over.
#[cycle(meaning)]
fn repeat(
    alloc: Global,
    around: &Around<'_>,
    test: Option<&Expr>,
    body: &Stmt,
    step: Option<&Change>,
    state: &mut BodyState,
    turns: &mut u64,
) -> Result<Flow, Stop>
    ensures leaves { Leaves result state.new turns.new (repeated (around_of around.now) (option_copied test.entry) body.now
        (option_copied step.entry) state.old turns.old) }
    ensures fewer { turns.new ≤ turns.old }
{
    loop {
        take_turn(turns)?;
        if !tested(alloc, around.file, test, state, turns)? {
            return Ok(Flow::GoesOn);
        }
        let flow = stmt(alloc, around, body, state, turns)?;
        match step_behind(flow, step) {
            Ok(next) => stepped(alloc, around.file, next, state, turns)?,
            Err(left) => return Ok(left),
        }
    }
}

/// Whether the condition of a loop holds; without one it does.
#[cycle(meaning)]
fn tested(
    alloc: Global,
    file: &[Item],
    test: Option<&Expr>,
    state: &BodyState,
    turns: &mut u64,
) -> Result<bool, Stop>
    ensures gives { Tests result turns.new (run_test (file_of (map item_tree file.now)) (option_map expr_tree (option_copied test.entry)) state.now turns.old) }
    ensures fewer { turns.new ≤ turns.old }
{
    match test {
        None => Ok(true),
        Some(condition) => {
            let number = value(alloc, file, condition, state, turns)?;
            Ok(holds(number))
        }
    }
}

/// Runs the step of a loop, where it has one.
#[cycle(meaning)]
fn stepped(
    alloc: Global,
    file: &[Item],
    step: Option<&Change>,
    state: &mut BodyState,
    turns: &mut u64,
) -> Result<(), Stop>
    ensures goes_on { GoesOn result state.new turns.new (run_step (file_of (map item_tree file.now))
        (option_map change_tree (option_copied step.entry)) state.old turns.old) }
    ensures fewer { turns.new ≤ turns.old }
{
    match step {
        None => Ok(()),
        Some(step) => change(alloc, file, step, state, turns),
    }
}

/// Runs the declarators of a declaration of this type.
#[cycle(meaning)]
fn declarators(
    alloc: Global,
    around: &Around<'_>,
    ty: Ty,
    list: &List<Declarator>,
    state: &mut BodyState,
    turns: &mut u64,
) -> Result<(), Stop>
    ensures goes_on { GoesOn result state.new turns.new
        (run_declarators (around_of around.now) (is_unsigned ty) (map declarator_tree list.now) state.old turns.old) }
    ensures fewer { turns.new ≤ turns.old }
{
    for next in list.as_slice() {
        declarator(alloc, around, ty, next, state, turns)?;
    }
    Ok(())
}

/// Declares what a declarator names, with its size or its first value.
#[cycle(meaning)]
fn declarator(
    alloc: Global,
    around: &Around<'_>,
    ty: Ty,
    declarator: &Declarator,
    state: &mut BodyState,
    turns: &mut u64,
) -> Result<(), Stop>
    ensures goes_on { GoesOn result state.new turns.new
        (run_declarator (around_of around.now) (is_unsigned ty) (declarator_tree declarator.now) state.old turns.old) }
    ensures fewer { turns.new ≤ turns.old }
{
    let id = declarator.name.id;
    let unsigned = ty.is_unsigned();
    match &declarator.size {
        None if declarator.stream => state.declare_streams(id, unsigned, 1),
        None => scalar(alloc, around.file, ty, declarator, state, turns),
        Some(size) => {
            let number = value(alloc, around.file, &size.value, state, turns)?;
            if declarator.stream {
                state.declare_streams(id, unsigned, array_size(number))
            } else if around.is_control() {
                state.declare_window(id, unsigned, size.mark.line, number)
            } else {
                state.declare_array(alloc, id, unsigned, array_size(number))
            }
        }
    }
}

/// Declares a scalar of this type. It is 0 while its first value is evaluated.
#[cycle(meaning)]
fn scalar(
    alloc: Global,
    file: &[Item],
    ty: Ty,
    declarator: &Declarator,
    state: &mut BodyState,
    turns: &mut u64,
) -> Result<(), Stop>
    ensures goes_on { GoesOn result state.new turns.new (run_scalar (file_of (map item_tree file.now)) (is_unsigned ty) declarator.now.name.id
        (option_map expr_tree declarator.now.first) state.old turns.old) }
    ensures fewer { turns.new ≤ turns.old }
{
    state.declare_scalar(declarator.name.id, ty.is_unsigned())?;
    if let Some(first) = &declarator.first {
        let number = value(alloc, file, first, state, turns)?;
        state.store(declarator.name.id, number);
    }
    Ok(())
}
