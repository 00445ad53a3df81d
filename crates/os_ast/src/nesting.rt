ghost use Rattle.std.specs.Prelude.{◌≡◌, ◌<◌, ◌^◌, map, option_map};
ghost use Rattle.os_ast.specs.Depth.{expr_depth, target_depth, args_depth, links_depth, index_depth, value_depth, deepest};
ghost use Rattle.os_ast.specs.Depth.{declarator_depth, change_depth, start_depth, step_depth, clause_item_depth};
ghost use Rattle.os_ast.specs.Depth.{clause_kind_depth, clause_depth, stmt_depth, stmts_depth, item_depth, program_depth};
ghost use Rattle.os_ast.specs.Views.{expr_tree, target_tree, args_tree, links_tree, index_tree, declarator_tree, change_tree, start_tree};
ghost use Rattle.os_ast.specs.Views.{clause_item_tree, clause_kind_tree, clause_tree, stmt_tree, stmts_tree, item_tree, program_tree};
ghost use Rattle.std.specs.Option.{option_map_or};

use crate::expr::{Expr, Index, Link, Target};
use crate::pragma::{Clause, ClauseItem, ClauseKind, Join};
use crate::program::{Item, Program};
use crate::stmt::{Change, Declarator, Start, Stmt};
use os_io::List;

/// How deep a program is nested: how many functions, statements and expressions stand inside one another at
/// its deepest place, where a chain and the condition of a choice add nothing to their parts. It takes no
/// memory, and time linear in the tree.
#[tactic(auto, using(crate::proofs::Drops::drops))]
pub fn depth(program: &Program) -> u32
    requires { program_depth (program_tree program.now) < 2 ^ 32 }
    ensures { result ≡ program_depth (program_tree program.now) }
{
    let mut deepest = 0;
    for item in program.items.as_slice() {
        deepest = depth_of_item(item).max(deepest);
    }
    deepest
}

fn depth_of_item(item: &Item) -> u32
    requires { item_depth (item_tree item.now) < 2 ^ 32 }
    ensures { result ≡ item_depth (item_tree item.now) }
{
    match item {
        Item::Constant(_) => 0,
        Item::Function(function) => 1 + depth_of_stmts(&function.body),
    }
}

#[cycle(stmts)]
#[tactic(auto, using(crate::proofs::Drops::drops))]
fn depth_of_stmts(stmts: &List<Stmt>) -> u32
    requires { stmts_depth (stmts_tree stmts.now) < 2 ^ 32 }
    ensures { result ≡ stmts_depth (stmts_tree stmts.now) }
{
    let mut deepest = 0;
    for stmt in stmts.as_slice() {
        deepest = depth_of_stmt(stmt).max(deepest);
    }
    deepest
}

#[cycle(stmts)]
#[tactic(auto, using(crate::proofs::Rows::rows))]
fn depth_of_stmt(stmt: &Stmt) -> u32
    requires { stmt_depth (stmt_tree stmt.now) < 2 ^ 32 }
    ensures { result ≡ stmt_depth (stmt_tree stmt.now) }
{
    match stmt {
        Stmt::Empty | Stmt::Break(_) | Stmt::Continue(_) | Stmt::Taskwait(_) => 1,
        Stmt::Block(stmts) => 1 + depth_of_stmts(stmts),
        Stmt::Declare(_, declarators) => 1 + depth_of_declarators(declarators),
        Stmt::Change(change) => 1 + depth_of_change(change),
        Stmt::Call(call) => 1 + depth_of_args(&call.args),
        Stmt::If(condition, first, second) => {
            1 + depth_of_expr(condition)
                .max(depth_of_stmt(first))
                .max(depth_of_else(second))
        }
        Stmt::While(condition, body) => 1 + depth_of_expr(condition).max(depth_of_stmt(body)),
        Stmt::For(head, body) => {
            1 + depth_of_start(&head.start)
                .max(depth_of_value(&head.test))
                .max(depth_of_step(&head.step))
                .max(depth_of_stmt(body))
        }
        Stmt::Return(_, value) => 1 + depth_of_expr(value),
        Stmt::Task(site) => 1 + depth_of_clauses(&site.clauses).max(depth_of_stmt(&site.body)),
        Stmt::Tick(site) => 1 + depth_of_target(&site.stream).max(depth_of_expr(&site.amount)),
    }
}

#[cycle(stmts)]
fn depth_of_else(second: &Option<Box<Stmt>>) -> u32
    requires { option_map_or (λ b. stmt_depth (stmt_tree b.value)) second.now 0 < 2 ^ 32 }
    ensures { result ≡ option_map_or (λ b. stmt_depth (stmt_tree b.value)) second.now 0 }
{
    match second {
        None => 0,
        Some(second) => depth_of_stmt(second),
    }
}

#[tactic(auto, using(crate::proofs::Drops::drops))]
fn depth_of_declarators(declarators: &List<Declarator>) -> u32
    requires { deepest declarator_depth (map declarator_tree declarators.now) < 2 ^ 32 }
    ensures { result ≡ deepest declarator_depth (map declarator_tree declarators.now) }
{
    let mut deepest = 0;
    for declarator in declarators.as_slice() {
        deepest = depth_of_declarator(declarator).max(deepest);
    }
    deepest
}

fn depth_of_declarator(declarator: &Declarator) -> u32
    requires { declarator_depth (declarator_tree declarator.now) < 2 ^ 32 }
    ensures { result ≡ declarator_depth (declarator_tree declarator.now) }
{
    depth_of_index(&declarator.size).max(depth_of_value(&declarator.first))
}

fn depth_of_start(start: &Start) -> u32
    requires { start_depth (start_tree start.now) < 2 ^ 32 }
    ensures { result ≡ start_depth (start_tree start.now) }
{
    match start {
        Start::Empty => 0,
        Start::Declare(_, declarators) => depth_of_declarators(declarators),
        Start::Change(change) => depth_of_change(change),
    }
}

fn depth_of_step(step: &Option<Change>) -> u32
    requires { step_depth (option_map change_tree step.now) < 2 ^ 32 }
    ensures { result ≡ step_depth (option_map change_tree step.now) }
{
    match step {
        None => 0,
        Some(change) => depth_of_change(change),
    }
}

fn depth_of_change(change: &Change) -> u32
    requires { change_depth (change_tree change.now) < 2 ^ 32 }
    ensures { result ≡ change_depth (change_tree change.now) }
{
    match change {
        Change::Set(target, _, _, value) => depth_of_target(target).max(depth_of_expr(value)),
        Change::After(target, _, _) | Change::Before(target, _, _) => depth_of_target(target),
    }
}

#[tactic(auto, using(crate::proofs::Drops::drops))]
fn depth_of_clauses(clauses: &List<Clause>) -> u32
    requires { deepest clause_depth (map clause_tree clauses.now) < 2 ^ 32 }
    ensures { result ≡ deepest clause_depth (map clause_tree clauses.now) }
{
    let mut deepest = 0;
    for clause in clauses.as_slice() {
        deepest = depth_of_clause(&clause.kind).max(deepest);
    }
    deepest
}

fn depth_of_clause(kind: &ClauseKind) -> u32
    requires { clause_kind_depth (clause_kind_tree kind.now) < 2 ^ 32 }
    ensures { result ≡ clause_kind_depth (clause_kind_tree kind.now) }
{
    match kind {
        ClauseKind::Input(items) | ClauseKind::Output(items) => depth_of_clause_items(items),
        ClauseKind::Firstprivate(_) => 0,
    }
}

#[tactic(auto, using(crate::proofs::Drops::drops))]
fn depth_of_clause_items(items: &List<ClauseItem>) -> u32
    requires { deepest clause_item_depth (map clause_item_tree items.now) < 2 ^ 32 }
    ensures { result ≡ deepest clause_item_depth (map clause_item_tree items.now) }
{
    let mut deepest = 0;
    for item in items.as_slice() {
        deepest = depth_of_clause_item(item).max(deepest);
    }
    deepest
}

fn depth_of_clause_item(item: &ClauseItem) -> u32
    requires { clause_item_depth (clause_item_tree item.now) < 2 ^ 32 }
    ensures { result ≡ clause_item_depth (clause_item_tree item.now) }
{
    let stream = depth_of_target(&item.stream);
    match &item.window {
        None => stream,
        Some(join) => stream.max(depth_of_index(&join.burst)),
    }
}

fn depth_of_index(index: &Option<Index>) -> u32
    requires { index_depth (option_map index_tree index.now) < 2 ^ 32 }
    ensures { result ≡ index_depth (option_map index_tree index.now) }
{
    match index {
        None => 0,
        Some(index) => depth_of_expr(&index.value),
    }
}

fn depth_of_value(value: &Option<Expr>) -> u32
    requires { value_depth (option_map expr_tree value.now) < 2 ^ 32 }
    ensures { result ≡ value_depth (option_map expr_tree value.now) }
{
    match value {
        None => 0,
        Some(value) => depth_of_expr(value),
    }
}

#[cycle(exprs)]
#[tactic(auto, using(crate::proofs::Rows::rows))]
fn depth_of_expr(expr: &Expr) -> u32
    requires { expr_depth (expr_tree expr.now) < 2 ^ 32 }
    ensures { result ≡ expr_depth (expr_tree expr.now) }
{
    match expr {
        Expr::Number(_) | Expr::Wide(_) => 1,
        Expr::Place(target) => 1 + depth_of_target(target),
        Expr::Call(call) => 1 + depth_of_args(&call.args),
        Expr::Paren(inner) => 1 + depth_of_expr(inner),
        Expr::Unary(_, _, operand) => 1 + depth_of_expr(operand),
        Expr::Chain(_, first, links) => depth_of_expr(first).max(depth_of_links(links)),
        Expr::Choice(condition, first, second) => {
            depth_of_expr(condition).max(1 + depth_of_expr(first).max(depth_of_expr(second)))
        }
    }
}

#[cycle(exprs)]
fn depth_of_target(target: &Target) -> u32
    requires { target_depth (target_tree target.now) < 2 ^ 32 }
    ensures { result ≡ target_depth (target_tree target.now) }
{
    match &target.index {
        None => 0,
        Some(index) => depth_of_expr(&index.value),
    }
}

#[cycle(exprs)]
fn depth_of_args(args: &List<Expr>) -> u32
    requires { args_depth (args_tree args.now) < 2 ^ 32 }
    ensures { result ≡ args_depth (args_tree args.now) }
{
    let mut deepest = 0;
    for arg in args.as_slice() {
        deepest = depth_of_expr(arg).max(deepest);
    }
    deepest
}

#[cycle(exprs)]
fn depth_of_links(links: &List<Link>) -> u32
    requires { links_depth (links_tree links.now) < 2 ^ 32 }
    ensures { result ≡ links_depth (links_tree links.now) }
{
    let mut deepest = 0;
    for link in links.as_slice() {
        deepest = depth_of_expr(&link.right).max(deepest);
    }
    deepest
}
