//! Functions that can end without `return`.

ghost use Rattle.std.specs.Prelude.{◌≡◌, IfOk, map, option_map};
ghost use Rattle.os_ast.specs.Views.{expr_tree, stmt_tree, stmts_tree, item_tree, program_tree};
ghost use Rattle.oscheck_warnings.specs.Endings.{other_breaks, other_stays, is_open, place_of};
ghost use Rattle.oscheck_warnings.specs.OpenEnds.{breaks, some_break, is_some_number, holds_always, stays, some_stay, AreOpenEnds};

use crate::places::Places;
use os_ast::{Expr, Item, Program, Stmt};
use os_io::{List, Memory};
use os_lexer::names::MAIN;
use std::alloc::Global;

/// Whether a `break` in a statement leaves a loop round it.
#[cycle(breaks)]
#[tactic(auto, using(crate::proofs::Joined::joining))]
fn breaks(stmt: &Stmt) -> bool
    ensures { result ≡ breaks (stmt_tree stmt.now) }
{
    match stmt {
        Stmt::Break(_) => true,
        Stmt::Block(inner) => some_break(inner),
        Stmt::If(_, first, second) => breaks(first) || other_breaks(second),
        Stmt::Empty
        | Stmt::Declare(_, _)
        | Stmt::Change(_)
        | Stmt::Call(_)
        | Stmt::While(_, _)
        | Stmt::For(_, _)
        | Stmt::Continue(_)
        | Stmt::Return(_, _)
        | Stmt::Task(_)
        | Stmt::Tick(_)
        | Stmt::Taskwait(_) => false,
    }
}

/// Whether a `break` in some statements leaves a loop round them.
#[cycle(breaks)]
#[tactic(auto, using(crate::proofs::Joined::joining))]
fn some_break(stmts: &List<Stmt>) -> bool
    ensures { result ≡ some_break (stmts_tree stmts.now) }
{
    for next in stmts.as_slice() {
        if breaks(next) {
            return true;
        }
    }
    false
}

/// Whether a `break` in what stands behind `else` leaves a loop round it.
#[cycle(breaks)]
#[tactic(auto, using(crate::proofs::Joined::joining))]
fn other_breaks(second: &Option<Box<Stmt>>) -> bool
    ensures { result ≡ other_breaks second.now }
{
    match second {
        None => false,
        Some(second) => breaks(second),
    }
}

/// Whether an expression is a number other than 0.
fn is_some_number(expr: &Expr) -> bool
    ensures { result ≡ is_some_number (expr_tree expr.now) }
{
    match expr {
        Expr::Number(number) | Expr::Wide(number) => 0 < *number,
        Expr::Place(_)
        | Expr::Call(_)
        | Expr::Paren(_)
        | Expr::Unary(_, _, _)
        | Expr::Chain(_, _, _)
        | Expr::Choice(_, _, _) => false,
    }
}

/// Whether the condition of a `for` is such a number, or none.
fn holds_always(test: &Option<Expr>) -> bool
    ensures { result ≡ holds_always (option_map expr_tree test.now) }
{
    match test {
        None => true,
        Some(test) => is_some_number(test),
    }
}

/// Whether nothing comes behind a statement.
#[cycle(stays)]
#[tactic(auto, using(crate::proofs::Joined::joining))]
fn stays(stmt: &Stmt) -> bool
    ensures { result ≡ stays (stmt_tree stmt.now) }
{
    match stmt {
        Stmt::Return(_, _) => true,
        Stmt::Block(inner) => some_stay(inner),
        Stmt::If(_, first, second) => stays(first) && other_stays(second),
        Stmt::While(condition, body) => is_some_number(condition) && !breaks(body),
        Stmt::For(head, body) => holds_always(&head.test) && !breaks(body),
        Stmt::Empty
        | Stmt::Declare(_, _)
        | Stmt::Change(_)
        | Stmt::Call(_)
        | Stmt::Break(_)
        | Stmt::Continue(_)
        | Stmt::Task(_)
        | Stmt::Tick(_)
        | Stmt::Taskwait(_) => false,
    }
}

/// Whether nothing comes behind one of some statements.
#[cycle(stays)]
#[tactic(auto, using(crate::proofs::Joined::joining))]
fn some_stay(stmts: &List<Stmt>) -> bool
    ensures { result ≡ some_stay (stmts_tree stmts.now) }
{
    for next in stmts.as_slice() {
        if stays(next) {
            return true;
        }
    }
    false
}

/// Whether nothing comes behind what stands behind `else`.
#[cycle(stays)]
#[tactic(auto, using(crate::proofs::Joined::joining))]
fn other_stays(second: &Option<Box<Stmt>>) -> bool
    ensures { result ≡ other_stays second.now }
{
    match second {
        None => false,
        Some(second) => stays(second),
    }
}

/// Whether an item is a function other than `main` that can end without `return`.
fn is_open(item: &Item) -> bool
    ensures { result ≡ is_open item.now }
{
    match item {
        Item::Constant(_) => false,
        Item::Function(function) => function.name.id != MAIN && !some_stay(&function.body),
    }
}

/// The place of the name of a function, and 0 of a constant.
fn place_of(item: &Item) -> u32
    ensures { result ≡ place_of item.now }
{
    match item {
        Item::Constant(_) => 0,
        Item::Function(function) => function.name.mark.place,
    }
}

/// The places of the names of functions among some items that can end without `return`.
#[tactic(auto, using(crate::proofs::OpenEnds::open_ends))]
fn marked(alloc: Global, items: &[Item]) -> Result<Places, Memory>
    ensures { IfOk result (λ places. AreOpenEnds (map item_tree items.now) places) }
{
    let mut places = Places::new(alloc);
    for index in 0..items.len() {
        let item = &items[index];
        places.add_if(is_open(item), place_of(item))?;
    }
    Ok(places)
}

/// The places of the names of functions, but `main`, that can end without `return`, as far as their statements tell.
pub fn open_ended(alloc: Global, program: &Program) -> Result<Places, Memory>
    ensures { IfOk result (AreOpenEnds (program_tree program.now)) }
{
    marked(alloc, program.items.as_slice())
}
