//! Statements and declarations.

ghost use Rattle.std.specs.Prelude.{◌≡◌, ◌+◌, ◌≤◌, [], OnOk, IfOk, length, map, option_map};
ghost use Rattle.os_ast.specs.Names.{after_unit, behind, in_loop};
ghost use Rattle.os_ast.specs.Notes.Statements.{after_stmt, after_stmts, stmt_notes, stmts_notes};
ghost use Rattle.os_ast.specs.ClauseMembers.{members};
ghost use Rattle.os_ast.specs.Rules.{is_main_body, is_task_body, when};
ghost use Rattle.os_ast.specs.Trees as tree;
ghost use Rattle.os_ast.specs.Views.{expr_tree, target_tree, change_tree, clause_tree, start_tree, stmt_tree, stmts_tree};
ghost use Rattle.std.specs.Prelude.{not};
ghost use Rattle.window_check_names.specs.BrokenRules.{least_rule};
ghost use Rattle.os_ast.specs.declared.rule.Rule.TheVariants.{Misplaced, ReturnInTask};
ghost use Rattle.window_check_names.specs.Findings.{noted};
ghost use Rattle.window_check_laws.specs.Room.{HasRoom, stmt_weight, stmts_weight, start_weight, room_end};
ghost use Rattle.window_check.specs.Statements.{else_tree, in_named_task, listed_for, listed_in};
ghost use Rattle.os_ast.specs.Notes.Clauses.{captured_in};
ghost use Rattle.os_ast.specs.declared.names.Owner.TheVariants as owners;

use crate::declarators::{declaration, start};
use os_ast::{Direction, Head, Owner, Role, Rule, Stmt, TaskSite, TickSite};
use os_io::{List, Memory};
use std::alloc::Global;
use window_check_names::broken_rules::when;
use window_check_names::clauses::clauses;
use window_check_names::expressions::{called, change, expr, place, step, value};
use window_check_names::members::{ItemName, declare_items};
use window_check_names::{Captured, Found, Scopes, Slots};

/// A pragma stands outside `main` or inside a task.
fn pragma_rule(owner: Owner) -> Option<Rule>
    ensures { result ≡ least_rule (when (not (is_main_body owner)) Misplaced) }
{
    match owner {
        Owner::OfMain => None,
        Owner::OfFunction | Owner::OfTask => Some(Rule::Misplaced),
    }
}

/// The rule that a `return` violates where it stands in a task.
fn return_rule(owner: Owner) -> Option<Rule>
    ensures { result ≡ least_rule (when (is_task_body owner) ReturnInTask) }
{
    match owner {
        Owner::OfTask => Some(Rule::ReturnInTask),
        Owner::OfMain | Owner::OfFunction => None,
    }
}

/// Judges a statement, or a declaration, whose names it puts in scope.
#[cycle(stmts)]
fn stmt(alloc: Global, scopes: &mut Scopes, found: &mut Found, stmt: &Stmt) -> Result<(), Memory>
    requires { HasRoom scopes.old (stmt_weight (stmt_tree stmt.now)) }
    ensures scopes { OnOk result (scopes.new ≡ after_stmt scopes.old (stmt_tree stmt.now)) }
    ensures found { OnOk result (found.new ≡ noted found.old (stmt_notes scopes.old (stmt_tree stmt.now))) }
{
    match stmt {
        Stmt::Empty => Ok(()),
        Stmt::Block(list) => block(alloc, scopes, found, list),
        Stmt::Declare(ty, list) => declaration(scopes, found, *ty, list),
        Stmt::Change(next) => change(scopes, found, next),
        Stmt::Call(call) => called(scopes, found, call),
        Stmt::If(condition, first, second) => {
            expr(scopes, found, condition)?;
            self::stmt(alloc, scopes, found, first)?;
            otherwise(alloc, scopes, found, second)
        }
        Stmt::While(condition, body) => {
            expr(scopes, found, condition)?;
            repeated(alloc, scopes, found, body)
        }
        Stmt::For(head, body) => for_loop(alloc, scopes, found, head, body),
        Stmt::Break(mark) | Stmt::Continue(mark) => {
            found.add_violation(*mark, when(!scopes.in_loop(), Rule::OutsideLoop))
        }
        Stmt::Return(mark, value) => {
            found.add_violation(*mark, return_rule(scopes.owner()))?;
            expr(scopes, found, value)
        }
        Stmt::Task(site) => task(alloc, scopes, found, site),
        Stmt::Tick(site) => tick(scopes, found, site),
        Stmt::Taskwait(mark) => { found.add_violation(*mark, pragma_rule(scopes.owner())) }
    }
}

/// Judges the statements and declarations of a block, in the scope that is open.
#[cycle(stmts)]
pub(crate) fn stmts(
    alloc: Global,
    scopes: &mut Scopes,
    found: &mut Found,
    stmts: &List<Stmt>,
) -> Result<(), Memory>
    requires { HasRoom scopes.old (stmts_weight (stmts_tree stmts.now)) }
    ensures scopes { OnOk result (scopes.new ≡ after_stmts scopes.old (stmts_tree stmts.now)) }
    ensures found { OnOk result (found.new ≡ noted found.old (stmts_notes scopes.old (stmts_tree stmts.now))) }
{
    for next in stmts.as_slice() {
        stmt(alloc, scopes, found, next)?;
    }
    Ok(())
}

/// Judges a block in a scope of its own.
#[cycle(stmts)]
fn block(
    alloc: Global,
    scopes: &mut Scopes,
    found: &mut Found,
    list: &List<Stmt>,
) -> Result<(), Memory>
    requires { HasRoom scopes.old (stmt_weight (tree.Block (stmts_tree list.now))) }
    ensures scopes { OnOk result (scopes.new ≡ after_stmt scopes.old (tree.Block (stmts_tree list.now))) }
    ensures found { OnOk result (found.new ≡ noted found.old (stmt_notes scopes.old (tree.Block (stmts_tree list.now)))) }
{
    let outer = scopes.enter();
    stmts(alloc, scopes, found, list)?;
    scopes.leave(outer);
    Ok(())
}

/// Judges what stands behind `else`, where there is one.
#[cycle(stmts)]
fn otherwise(
    alloc: Global,
    scopes: &mut Scopes,
    found: &mut Found,
    second: &Option<Box<Stmt>>,
) -> Result<(), Memory>
    requires { HasRoom scopes.old (stmt_weight (else_tree second.now)) }
    ensures scopes { OnOk result (scopes.new ≡ after_stmt scopes.old (else_tree second.now)) }
    ensures found { OnOk result (found.new ≡ noted found.old (stmt_notes scopes.old (else_tree second.now))) }
{
    match second {
        None => Ok(()),
        Some(second) => stmt(alloc, scopes, found, second),
    }
}

/// Judges what a `while` repeats, inside a loop.
#[cycle(stmts)]
fn repeated(
    alloc: Global,
    scopes: &mut Scopes,
    found: &mut Found,
    body: &Stmt,
) -> Result<(), Memory>
    requires { HasRoom scopes.old (stmt_weight (stmt_tree body.now)) }
    ensures scopes { OnOk result (scopes.new ≡ behind scopes.old (after_stmt (in_loop scopes.old) (stmt_tree body.now))) }
    ensures found { OnOk result (found.new ≡ noted found.old (stmt_notes (in_loop scopes.old) (stmt_tree body.now))) }
{
    let before = scopes.enter_loop();
    stmt(alloc, scopes, found, body)?;
    scopes.leave_loop(before);
    Ok(())
}

/// Judges a `for`: its head in a scope of its own, and in the same what it repeats.
#[cycle(stmts)]
fn for_loop(
    alloc: Global,
    scopes: &mut Scopes,
    found: &mut Found,
    head: &Head,
    body: &Stmt,
) -> Result<(), Memory>
    requires { HasRoom scopes.old (1 + start_weight (start_tree head.now.start) + stmt_weight (stmt_tree body.now)) }
    ensures scopes { OnOk result (scopes.new ≡ after_stmt scopes.old
        (tree.For (start_tree head.now.start) (option_map expr_tree head.now.test) (option_map change_tree head.now.step) (stmt_tree body.now))) }
    ensures found { OnOk result (found.new ≡ noted found.old (stmt_notes scopes.old
        (tree.For (start_tree head.now.start) (option_map expr_tree head.now.test) (option_map change_tree head.now.step) (stmt_tree body.now)))) }
{
    let outer = scopes.enter();
    start(scopes, found, &head.start)?;
    value(scopes, found, &head.test)?;
    step(scopes, found, &head.step)?;
    scopes.enter_loop();
    stmt(alloc, scopes, found, body)?;
    scopes.leave(outer);
    Ok(())
}

/// Judges a tick: where it stands, its stream and its amount.
#[tactic(auto, using(window_check_names::proofs::AddedViolations::added_notes))]
fn tick(scopes: &Scopes, found: &mut Found, site: &TickSite) -> Result<(), Memory>
    ensures { OnOk result (found.new ≡ noted found.old (stmt_notes scopes.now
        (tree.Tick site.now.mark (target_tree site.now.stream) site.now.arrow (expr_tree site.now.amount)))) }
{
    found.add_violation(site.mark, pragma_rule(scopes.owner()))?;
    place(scopes, found, Role::Flow(Direction::Reads), &site.stream)?;
    expr(scopes, found, &site.amount)
}

/// Judges a task: its clauses, then what its body captures, then the body itself.
#[cycle(stmts)]
fn task(
    alloc: Global,
    scopes: &mut Scopes,
    found: &mut Found,
    site: &TaskSite,
) -> Result<(), Memory>
    requires { HasRoom scopes.old (1 + length (members (map clause_tree site.now.clauses)) + stmt_weight (stmt_tree site.now.body)) }
    ensures scopes { OnOk result (scopes.new ≡ after_stmt scopes.old (tree.Task site.now.mark (map clause_tree site.now.clauses) (stmt_tree site.now.body))) }
    ensures found { OnOk result (found.new ≡ noted found.old (stmt_notes scopes.old
        (tree.Task site.now.mark (map clause_tree site.now.clauses) (stmt_tree site.now.body)))) }
{
    let (items, privates) = clauses(alloc, scopes, found, &site.clauses)?.into_parts();
    let captured = captured(alloc, scopes, found, &site.body, &items, privates)?;
    found.task(alloc, scopes.owner(), site.mark, items.len(), &captured)?;
    let slots = slots(alloc, scopes.owner(), &captured)?;
    body(alloc, scopes, found, &site.body, &items, slots)
}

/// The slots of what the body of a task captures: none, where the task doesn't stand in `main`.
fn slots(alloc: Global, owner: Owner, captured: &Captured) -> Result<Slots, Memory>
    ensures { IfOk result (λ slots. slots ≡ captured_in owner captured.now) }
{
    match owner {
        Owner::OfMain => Ok(Slots::new(captured.in_order(alloc)?)),
        Owner::OfFunction | Owner::OfTask => Ok(Slots::none(alloc)),
    }
}

/// What a task captures with this body, these items and these `firstprivate` scalars, where that has to be known: none, where it
/// doesn't stand in `main`, unless all violations are collected.
#[cycle(stmts)]
fn captured(
    alloc: Global,
    scopes: &mut Scopes,
    found: &Found,
    body: &Stmt,
    items: &List<ItemName>,
    privates: Captured,
) -> Result<Captured, Memory>
    requires room { HasRoom (in_named_task scopes.old [] items.now) (stmt_weight (stmt_tree body.now)) }
    requires depth { scopes.old.depth + 1 ≤ room_end }
    ensures scopes { OnOk result (scopes.new ≡ scopes.old) }
    ensures captured { IfOk result (λ slots. slots ≡ listed_for found.now scopes.old.owner scopes.old privates items.now (stmt_tree body.now)) }
{
    match found {
        Found::Collecting(_) => listed(alloc, scopes, body, items, privates),
        Found::Listing(_) | Found::Judging(_) => match scopes.owner() {
            Owner::OfMain => listed(alloc, scopes, body, items, privates),
            Owner::OfFunction | Owner::OfTask => Ok(Captured::new(alloc)),
        },
    }
}

/// The scalars of `main` that a body names, with others: a walk over the body lists them, and leaves no other trace.
#[cycle(stmts)]
fn listed(
    alloc: Global,
    scopes: &mut Scopes,
    stmt: &Stmt,
    items: &List<ItemName>,
    others: Captured,
) -> Result<Captured, Memory>
    requires room { HasRoom (in_named_task scopes.old [] items.now) (stmt_weight (stmt_tree stmt.now)) }
    requires depth { scopes.old.depth + 1 ≤ room_end }
    ensures scopes { OnOk result (scopes.new ≡ scopes.old) }
    ensures captured { IfOk result (λ slots. slots ≡ listed_in owners.OfMain scopes.old others items.now (stmt_tree stmt.now)) }
{
    let totals = scopes.totals();
    let unsigned = scopes.unsigned();
    let mut found = Found::Listing(others);
    body(alloc, scopes, &mut found, stmt, items, Slots::none(alloc))?;
    scopes.set_totals(totals);
    scopes.set_unsigned(unsigned);
    Ok(found.into_listed(alloc))
}

/// Judges the body of a task, which captures these scalars.
#[cycle(stmts)]
fn body(
    alloc: Global,
    scopes: &mut Scopes,
    found: &mut Found,
    body: &Stmt,
    items: &List<ItemName>,
    captured: Slots,
) -> Result<(), Memory>
    requires room { HasRoom (in_named_task scopes.old captured items.now) (stmt_weight (stmt_tree body.now)) }
    requires depth { scopes.old.depth + 1 ≤ room_end }
    requires few { length captured ≤ room_end }
    ensures scopes { OnOk result (scopes.new ≡ after_unit scopes.old (after_stmt (in_named_task scopes.old captured items.now) (stmt_tree body.now))) }
    ensures found { OnOk result (found.new ≡ noted found.old (stmt_notes (in_named_task scopes.old captured items.now) (stmt_tree body.now))) }
{
    let around = scopes.begin_task(captured);
    declare_items(scopes, items)?;
    stmt(alloc, scopes, found, body)?;
    scopes.end(around);
    Ok(())
}
