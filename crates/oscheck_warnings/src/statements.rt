//! The scalars that statements name.

ghost use Rattle.std.specs.Prelude.{◌≡◌, ◌++◌, IfOk, OnOk, map, option_map};
ghost use Rattle.os_ast.specs.Views.{expr_tree, change_tree, start_tree, item_tree, stmt_tree, stmts_tree, program_tree};
ghost use Rattle.os_ast.specs.Trees as tree;
ghost use Rattle.oscheck_warnings.specs.Accesses.{accesses, item_accesses, stmt_accesses, stmts_accesses};
ghost use Rattle.oscheck_warnings.specs.Otherwise.{other_accesses};

use crate::access::{Access, Site};
use crate::expressions::{args, change, declarators, expr, start, step, value};
use os_ast::{Head, Item, Program, Stmt};
use os_io::{List, Memory};
use std::alloc::Global;

/// Adds the accesses of a statement or a declaration.
#[cycle(stmts)]
#[tactic(auto, using(crate::proofs::Joined::joining))]
fn stmt(list: &mut List<Access>, site: Site, stmt: &Stmt) -> Result<(), Memory>
    ensures { OnOk result (list.new ≡ list.old ++ stmt_accesses site (stmt_tree stmt.now)) }
{
    match stmt {
        Stmt::Empty | Stmt::Break(_) | Stmt::Continue(_) | Stmt::Tick(_) | Stmt::Taskwait(_) => {
            Ok(())
        }
        Stmt::Block(inner) => stmts(list, site, inner),
        Stmt::Declare(_, declared) => declarators(list, site, declared),
        Stmt::Change(next) => change(list, site, next),
        Stmt::Call(call) => args(list, site, &call.args),
        Stmt::If(condition, first, second) => {
            expr(list, site, condition)?;
            self::stmt(list, site, first)?;
            otherwise(list, site, second)
        }
        Stmt::While(condition, body) => {
            expr(list, site.in_loop(), condition)?;
            self::stmt(list, site.in_loop(), body)
        }
        Stmt::For(head, body) => for_loop(list, site, head, body),
        Stmt::Return(_, value) => expr(list, site, value),
        Stmt::Task(task) => self::stmt(list, Site::in_task(task.mark.place), &task.body),
    }
}

/// Adds the accesses of the statements and declarations of a block.
#[cycle(stmts)]
#[tactic(auto, using(crate::proofs::Joined::joining))]
fn stmts(list: &mut List<Access>, site: Site, stmts: &List<Stmt>) -> Result<(), Memory>
    ensures { OnOk result (list.new ≡ list.old ++ stmts_accesses site (stmts_tree stmts.now)) }
{
    for next in stmts.as_slice() {
        stmt(list, site, next)?;
    }
    Ok(())
}

/// Adds the accesses of what stands behind `else`, where there is one.
#[cycle(stmts)]
#[tactic(auto, using(crate::proofs::Joined::joining))]
fn otherwise(list: &mut List<Access>, site: Site, second: &Option<Box<Stmt>>) -> Result<(), Memory>
    ensures { OnOk result (list.new ≡ list.old ++ other_accesses site second.now) }
{
    match second {
        None => Ok(()),
        Some(second) => stmt(list, site, second),
    }
}

/// Adds the accesses of a `for`: those of its step stand behind those of what it repeats.
#[cycle(stmts)]
#[tactic(auto, using(crate::proofs::Joined::joining))]
fn for_loop(list: &mut List<Access>, site: Site, head: &Head, body: &Stmt) -> Result<(), Memory>
    ensures { OnOk result (list.new ≡ list.old ++ stmt_accesses site
        (tree.For (start_tree head.now.start) (option_map expr_tree head.now.test) (option_map change_tree head.now.step) (stmt_tree body.now))) }
{
    start(list, site, &head.start)?;
    value(list, site.in_loop(), &head.test)?;
    stmt(list, site.in_loop(), body)?;
    step(list, site.in_loop(), &head.step)
}

/// Adds the accesses of an item of the program.
fn item(list: &mut List<Access>, item: &Item) -> Result<(), Memory>
    ensures { OnOk result (list.new ≡ list.old ++ item_accesses (item_tree item.now)) }
{
    match item {
        Item::Constant(_) => Ok(()),
        Item::Function(function) => stmts(list, Site::outside(), &function.body),
    }
}

/// All that a program names for its value or to change it, in the order in which a run comes by.
#[tactic(auto, using(crate::proofs::Joined::joining))]
pub(crate) fn accesses(alloc: Global, program: &Program) -> Result<List<Access>, Memory>
    ensures { IfOk result (λ list. list ≡ accesses (program_tree program.now)) }
{
    let mut list = List::new(alloc);
    for next in program.items.as_slice() {
        item(&mut list, next)?;
    }
    Ok(list)
}
