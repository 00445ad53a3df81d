//! Whether a part of a task's body names something from round the body. The compiler asks that by a walk of its own (`lowering_expressions`), of which
//! nothing is used here: what it makes of a program is held against the meaning that is computed so.

ghost use Rattle.std.specs.Prelude.{◌≡◌, map, option_map};
ghost use Rattle.os_ast.specs.FreeNames.{declared_ids, start_ids};
ghost use Rattle.os_ast.specs.ClauseMembers.{is_in, item_name};
ghost use Rattle.os_ast.specs.Trees as tree;
ghost use Rattle.os_ast.specs.Views.{args_tree, change_tree, clause_item_tree, clause_kind_tree, clause_tree, declarator_tree};
ghost use Rattle.os_ast.specs.Views.{expr_tree, index_tree, join_tree, links_tree, start_tree, stmt_tree, stmts_tree, target_tree};
ghost use Rattle.cddf_meaning_plain_tasks.specs.Has.{calls_item, clause_calls_item, clause_lists, declares, has_args, has_change, has_clause};
ghost use Rattle.cddf_meaning_plain_tasks.specs.Has.{has_clauses, has_declarators, has_expr, has_index, has_items, has_join, has_links};
ghost use Rattle.cddf_meaning_plain_tasks.specs.Has.{has_start, has_step, has_stmt, has_stmts, has_target, has_task, has_value, lists};
ghost use Rattle.cddf_meaning_plain_tasks.specs.Sought.{ids_of, item_names};

use os_ast::{
    Change, Clause, ClauseItem, ClauseKind, Declarator, Expr, Head, Index, Join, Link, Name, Start,
    Stmt, Target, TaskSite,
};
use os_io::List;

/// Whether an expression has this name.
#[cycle(expressions)]
#[tactic(auto, using(os_ast::proofs::Rows::rows))]
fn in_expr(expr: &Expr, id: u32) -> bool
    ensures { result ≡ has_expr id (expr_tree expr.now) }
{
    match expr {
        Expr::Number(_) | Expr::Wide(_) => false,
        Expr::Place(target) => in_target(target, id),
        Expr::Call(call) => call.name.id == id || in_args(&call.args, id),
        Expr::Paren(inner) => in_expr(inner, id),
        Expr::Unary(_, _, operand) => in_expr(operand, id),
        Expr::Chain(_, first, links) => in_expr(first, id) || in_links(links, id),
        Expr::Choice(condition, first, second) => {
            in_expr(condition, id) || in_expr(first, id) || in_expr(second, id)
        }
    }
}

#[cycle(expressions)]
fn in_target(target: &Target, id: u32) -> bool
    ensures { result ≡ has_target id (target_tree target.now) }
{
    if target.name.id == id {
        return true;
    }
    match &target.index {
        None => false,
        Some(index) => in_expr(&index.value, id),
    }
}

#[cycle(expressions)]
fn in_args(args: &List<Expr>, id: u32) -> bool
    ensures { result ≡ has_args id (args_tree args.now) }
{
    for arg in args.as_slice() {
        if in_expr(arg, id) {
            return true;
        }
    }
    false
}

#[cycle(expressions)]
fn in_links(links: &List<Link>, id: u32) -> bool
    ensures { result ≡ has_links id (links_tree links.now) }
{
    for link in links.as_slice() {
        if in_expr(&link.right, id) {
            return true;
        }
    }
    false
}

fn in_value(value: &Option<Expr>, id: u32) -> bool
    ensures { result ≡ has_value id (option_map expr_tree value.now) }
{
    match value {
        None => false,
        Some(value) => in_expr(value, id),
    }
}

fn in_index(index: &Option<Index>, id: u32) -> bool
    ensures { result ≡ has_index id (option_map index_tree index.now) }
{
    match index {
        None => false,
        Some(index) => in_expr(&index.value, id),
    }
}

fn in_change(change: &Change, id: u32) -> bool
    ensures { result ≡ has_change id (change_tree change.now) }
{
    match change {
        Change::Set(target, _, _, value) => in_target(target, id) || in_expr(value, id),
        Change::After(target, _, _) | Change::Before(target, _, _) => in_target(target, id),
    }
}

fn in_step(step: &Option<Change>, id: u32) -> bool
    ensures { result ≡ has_step id (option_map change_tree step.now) }
{
    match step {
        None => false,
        Some(change) => in_change(change, id),
    }
}

/// Whether some declarators declare this name.
fn declare(declarators: &List<Declarator>, id: u32) -> bool
    ensures { result ≡ is_in id (declared_ids (map declarator_tree declarators.now)) }
{
    for declarator in declarators.as_slice() {
        if declarator.name.id == id {
            return true;
        }
    }
    false
}

/// Whether the first values of declarators have this name, before one declares it.
fn in_declarators(declarators: &List<Declarator>, id: u32) -> bool
    ensures { result ≡ has_declarators id (map declarator_tree declarators.now) }
{
    for declarator in declarators.as_slice() {
        if declarator.name.id == id {
            return false;
        }
        if in_value(&declarator.first, id) {
            return true;
        }
    }
    false
}

fn starts(start: &Start, id: u32) -> bool
    ensures { result ≡ is_in id (start_ids (start_tree start.now)) }
{
    match start {
        Start::Declare(_, declarators) => declare(declarators, id),
        Start::Empty | Start::Change(_) => false,
    }
}

fn in_start(start: &Start, id: u32) -> bool
    ensures { result ≡ has_start id (start_tree start.now) }
{
    match start {
        Start::Empty => false,
        Start::Declare(_, declarators) => in_declarators(declarators, id),
        Start::Change(change) => in_change(change, id),
    }
}

fn in_join(join: &Option<Join>, id: u32) -> bool
    ensures { result ≡ has_join id (option_map join_tree join.now) }
{
    match join {
        None => false,
        Some(join) => join.name.id == id || in_index(&join.burst, id),
    }
}

fn in_items(items: &List<ClauseItem>, id: u32) -> bool
    ensures { result ≡ has_items id (map clause_item_tree items.now) }
{
    for item in items.as_slice() {
        if in_target(&item.stream, id) || in_join(&item.window, id) {
            return true;
        }
    }
    false
}

fn in_names(names: &List<Name>, id: u32) -> bool
    ensures { result ≡ is_in id (ids_of names.now) }
{
    for name in names.as_slice() {
        if name.id == id {
            return true;
        }
    }
    false
}

fn in_clause(kind: &ClauseKind, id: u32) -> bool
    ensures { result ≡ has_clause id (clause_kind_tree kind.now) }
{
    match kind {
        ClauseKind::Input(items) | ClauseKind::Output(items) => in_items(items, id),
        ClauseKind::Firstprivate(names) => in_names(names, id),
    }
}

fn in_clauses(clauses: &List<Clause>, id: u32) -> bool
    ensures { result ≡ has_clauses id (map clause_tree clauses.now) }
{
    for clause in clauses.as_slice() {
        if in_clause(&clause.kind, id) {
            return true;
        }
    }
    false
}

/// The name of an item in its task's body.
pub(crate) fn item_name(item: &ClauseItem) -> u32
    ensures { result ≡ (item_name (clause_item_tree item.now).stream (clause_item_tree item.now).window).id }
{
    match &item.window {
        None => item.stream.name.id,
        Some(join) => join.name.id,
    }
}

fn name_items(items: &List<ClauseItem>, id: u32) -> bool
    ensures { result ≡ is_in id (item_names (map clause_item_tree items.now)) }
{
    for item in items.as_slice() {
        if item_name(item) == id {
            return true;
        }
    }
    false
}

fn clause_names_item(kind: &ClauseKind, id: u32) -> bool
    ensures { result ≡ clause_calls_item id (clause_kind_tree kind.now) }
{
    match kind {
        ClauseKind::Input(items) | ClauseKind::Output(items) => name_items(items, id),
        ClauseKind::Firstprivate(_) => false,
    }
}

/// Whether an item of a task has this name.
fn name_item(clauses: &List<Clause>, id: u32) -> bool
    ensures { result ≡ calls_item id (map clause_tree clauses.now) }
{
    for clause in clauses.as_slice() {
        if clause_names_item(&clause.kind, id) {
            return true;
        }
    }
    false
}

fn clause_is_private(kind: &ClauseKind, id: u32) -> bool
    ensures { result ≡ clause_lists id (clause_kind_tree kind.now) }
{
    match kind {
        ClauseKind::Input(_) | ClauseKind::Output(_) => false,
        ClauseKind::Firstprivate(names) => in_names(names, id),
    }
}

/// Whether `firstprivate` lists this name.
fn is_private(clauses: &List<Clause>, id: u32) -> bool
    ensures { result ≡ lists id (map clause_tree clauses.now) }
{
    for clause in clauses.as_slice() {
        if clause_is_private(&clause.kind, id) {
            return true;
        }
    }
    false
}

/// Whether a statement declares this name in the scope in which it stands.
fn declares(stmt: &Stmt, id: u32) -> bool
    ensures { result ≡ declares id (stmt_tree stmt.now) }
{
    match stmt {
        Stmt::Declare(_, declarators) => declare(declarators, id),
        Stmt::If(_, first, None) => declares(first, id),
        Stmt::If(_, first, Some(second)) => declares(first, id) || declares(second, id),
        Stmt::While(_, body) => declares(body, id),
        _ => false,
    }
}

/// Whether a statement has this name, and doesn't declare it before.
#[cycle(statements)]
#[tactic(auto, using(os_ast::proofs::Rows::rows))]
fn in_stmt(stmt: &Stmt, id: u32) -> bool
    ensures { result ≡ has_stmt id (stmt_tree stmt.now) }
{
    match stmt {
        Stmt::Empty | Stmt::Break(_) | Stmt::Continue(_) | Stmt::Taskwait(_) => false,
        Stmt::Block(stmts) => in_stmts(stmts, id),
        Stmt::Declare(_, declarators) => in_declarators(declarators, id),
        Stmt::Change(change) => in_change(change, id),
        Stmt::Call(call) => call.name.id == id || in_args(&call.args, id),
        Stmt::If(condition, first, None) => in_expr(condition, id) || in_stmt(first, id),
        Stmt::If(condition, first, Some(second)) => {
            in_expr(condition, id)
                || in_stmt(first, id)
                || !declares(first, id) && in_stmt(second, id)
        }
        Stmt::While(condition, body) => in_expr(condition, id) || in_stmt(body, id),
        Stmt::For(head, body) => in_for(head, body, id),
        Stmt::Return(_, value) => in_expr(value, id),
        Stmt::Task(site) => in_inner_task(site, id),
        Stmt::Tick(site) => in_target(&site.stream, id) || in_expr(&site.amount, id),
    }
}

#[cycle(statements)]
fn in_stmts(stmts: &List<Stmt>, id: u32) -> bool
    ensures { result ≡ has_stmts id (stmts_tree stmts.now) }
{
    for stmt in stmts.as_slice() {
        if in_stmt(stmt, id) {
            return true;
        }
        if declares(stmt, id) {
            return false;
        }
    }
    false
}

#[cycle(statements)]
fn in_for(head: &Head, body: &Stmt, id: u32) -> bool
    ensures { result ≡ has_stmt id (tree.For (start_tree head.now.start) (option_map expr_tree head.now.test) (option_map change_tree head.now.step)
        (stmt_tree body.now)) }
{
    if in_start(&head.start, id) {
        return true;
    }
    if starts(&head.start, id) {
        return false;
    }
    in_value(&head.test, id) || in_step(&head.step, id) || in_stmt(body, id)
}

/// Whether a task in a task's body has this name. No program that keeps the rules has one.
#[cycle(statements)]
fn in_inner_task(site: &TaskSite, id: u32) -> bool
    ensures { result ≡ has_stmt id (tree.Task site.now.mark (map clause_tree site.now.clauses) (stmt_tree site.now.body)) }
{
    if in_clauses(&site.clauses, id) {
        return true;
    }
    if name_item(&site.clauses, id) {
        return false;
    }
    in_stmt(&site.body, id)
}

/// Whether a task names this from what is round it.
pub(crate) fn in_task(site: &TaskSite, id: u32) -> bool
    ensures { result ≡ has_task id (map clause_tree site.now.clauses) (stmt_tree site.now.body) }
{
    if is_private(&site.clauses, id) {
        return true;
    }
    if name_item(&site.clauses, id) {
        return false;
    }
    in_stmt(&site.body, id)
}
