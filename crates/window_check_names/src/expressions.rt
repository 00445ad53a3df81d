//! Names in expressions and changes.

ghost use Rattle.std.specs.Prelude.{◌≡◌, OnOk, option_map};
ghost use Rattle.os_ast.specs.Notes.Expressions.{expr_notes, place_notes, args_notes, links_notes, value_notes, index_notes, change_notes, step_notes};
ghost use Rattle.os_ast.specs.Trees as tree;
ghost use Rattle.os_ast.specs.Views.{expr_tree, target_tree, args_tree, links_tree, index_tree, change_tree};
ghost use Rattle.window_check_names.specs.Findings.{noted};

use crate::found::Found;
use crate::scopes::Scopes;
use crate::uses::used;
use os_ast::{Call, Change, Expr, Index, Link, Role, Shape, Target, Use};
use os_io::{List, Memory};

/// Judges the names of an expression.
#[cycle(exprs)]
#[tactic(auto, using(crate::proofs::Rules::exprs))]
pub fn expr(scopes: &Scopes, found: &mut Found, expr: &Expr) -> Result<(), Memory>
    ensures { OnOk result (found.new ≡ noted found.old (expr_notes scopes.now (expr_tree expr.now))) }
{
    match expr {
        Expr::Number(_) | Expr::Wide(_) => Ok(()),
        Expr::Place(target) => place(scopes, found, Role::Value, target),
        Expr::Call(call) => called(scopes, found, call),
        Expr::Paren(inner) => self::expr(scopes, found, inner),
        Expr::Unary(_, _, operand) => self::expr(scopes, found, operand),
        Expr::Chain(_, first, links) => {
            self::expr(scopes, found, first)?;
            linked(scopes, found, links)
        }
        Expr::Choice(condition, first, second) => {
            self::expr(scopes, found, condition)?;
            self::expr(scopes, found, first)?;
            self::expr(scopes, found, second)
        }
    }
}

/// Judges a name with an index or without, by where it stands, and the names of the index.
#[cycle(exprs)]
#[tactic(auto, using(crate::proofs::Rules::exprs))]
pub fn place(scopes: &Scopes, found: &mut Found, role: Role, target: &Target) -> Result<(), Memory>
    ensures { OnOk result (found.new ≡ noted found.old (place_notes scopes.now role (target_tree target.now))) }
{
    match &target.index {
        None => used(scopes, found, target.name, Use::Place(role, Shape::Bare)),
        Some(index) => {
            used(scopes, found, target.name, Use::Place(role, Shape::Indexed))?;
            expr(scopes, found, &index.value)
        }
    }
}

/// Judges a call: the name of its function, how many arguments it has, and their names.
#[cycle(exprs)]
#[tactic(auto, using(crate::proofs::Rules::exprs))]
pub fn called(scopes: &Scopes, found: &mut Found, call: &Call) -> Result<(), Memory>
    ensures { OnOk result (found.new ≡ noted found.old (expr_notes scopes.now (tree.ExprTree.Call call.now.name (args_tree call.now.args)))) }
{
    used(scopes, found, call.name, Use::Called(call.args.len()))?;
    args(scopes, found, &call.args)
}

/// Judges the names in the arguments of a call.
#[cycle(exprs)]
#[tactic(auto, using(crate::proofs::Rules::exprs))]
fn args(scopes: &Scopes, found: &mut Found, args: &List<Expr>) -> Result<(), Memory>
    ensures { OnOk result (found.new ≡ noted found.old (args_notes scopes.now (args_tree args.now))) }
{
    for arg in args.as_slice() {
        expr(scopes, found, arg)?;
    }
    Ok(())
}

/// Judges the names in the operands behind a chain's first one.
#[cycle(exprs)]
#[tactic(auto, using(crate::proofs::Rules::exprs))]
fn linked(scopes: &Scopes, found: &mut Found, links: &List<Link>) -> Result<(), Memory>
    ensures { OnOk result (found.new ≡ noted found.old (links_notes scopes.now (links_tree links.now))) }
{
    for link in links.as_slice() {
        expr(scopes, found, &link.right)?;
    }
    Ok(())
}

/// Judges the names of an expression that may be left out.
pub fn value(scopes: &Scopes, found: &mut Found, value: &Option<Expr>) -> Result<(), Memory>
    ensures { OnOk result (found.new ≡ noted found.old (value_notes scopes.now (option_map expr_tree value.now))) }
{
    match value {
        None => Ok(()),
        Some(value) => expr(scopes, found, value),
    }
}

/// Judges the names of an index that may be left out.
pub(crate) fn indexed(
    scopes: &Scopes,
    found: &mut Found,
    index: &Option<Index>,
) -> Result<(), Memory>
    ensures { OnOk result (found.new ≡ noted found.old (index_notes scopes.now (option_map index_tree index.now))) }
{
    match index {
        None => Ok(()),
        Some(index) => expr(scopes, found, &index.value),
    }
}

/// Judges the names of a change.
#[tactic(auto, using(crate::proofs::Rules::exprs))]
pub fn change(scopes: &Scopes, found: &mut Found, change: &Change) -> Result<(), Memory>
    ensures { OnOk result (found.new ≡ noted found.old (change_notes scopes.now (change_tree change.now))) }
{
    match change {
        Change::Set(target, _, _, value) => {
            place(scopes, found, Role::Changed, target)?;
            expr(scopes, found, value)
        }
        Change::After(target, _, _) | Change::Before(target, _, _) => {
            place(scopes, found, Role::Changed, target)
        }
    }
}

/// Judges the names of a change that may be left out.
pub fn step(scopes: &Scopes, found: &mut Found, step: &Option<Change>) -> Result<(), Memory>
    ensures { OnOk result (found.new ≡ noted found.old (step_notes scopes.now (option_map change_tree step.now))) }
{
    match step {
        None => Ok(()),
        Some(step) => change(scopes, found, step),
    }
}
