//! The scalars that expressions and changes name.

ghost use Rattle.std.specs.Prelude.{◌≡◌, ◌++◌, OnOk, map, option_map};
ghost use Rattle.os_ast.specs.Views.{expr_tree, target_tree, args_tree, links_tree, change_tree, declarator_tree, start_tree};
ghost use Rattle.oscheck_warnings.specs.Accesses.{expr_accesses, target_accesses, args_accesses, links_accesses, value_accesses};
ghost use Rattle.oscheck_warnings.specs.Accesses.{change_accesses, step_accesses, declarators_accesses, start_accesses};

use crate::access::{Access, Effect, Site};
use os_ast::{Change, Declarator, Expr, Link, Start, Target};
use os_io::{List, Memory};

/// Adds the accesses of an expression.
#[cycle(exprs)]
#[tactic(auto, using(crate::proofs::Joined::joining))]
pub(crate) fn expr(list: &mut List<Access>, site: Site, expr: &Expr) -> Result<(), Memory>
    ensures { OnOk result (list.new ≡ list.old ++ expr_accesses site (expr_tree expr.now)) }
{
    match expr {
        Expr::Number(_) | Expr::Wide(_) => Ok(()),
        Expr::Place(target) => self::target(list, site, Effect::Read, target),
        Expr::Call(call) => args(list, site, &call.args),
        Expr::Paren(inner) => self::expr(list, site, inner),
        Expr::Unary(_, _, operand) => self::expr(list, site, operand),
        Expr::Chain(_, first, links) => {
            self::expr(list, site, first)?;
            linked(list, site, links)
        }
        Expr::Choice(condition, first, second) => {
            self::expr(list, site, condition)?;
            self::expr(list, site, first)?;
            self::expr(list, site, second)
        }
    }
}

/// Adds the accesses of a name with an index or without: those of the index, and that of the name.
#[cycle(exprs)]
#[tactic(auto, using(crate::proofs::Joined::joining))]
fn target(
    list: &mut List<Access>,
    site: Site,
    effect: Effect,
    target: &Target,
) -> Result<(), Memory>
    ensures { OnOk result (list.new ≡ list.old ++ target_accesses site effect (target_tree target.now)) }
{
    match &target.index {
        None => list.push(Access {
            site,
            place: target.name.mark.place,
            effect,
        }),
        Some(index) => expr(list, site, &index.value),
    }
}

/// Adds the accesses of a call's arguments.
#[cycle(exprs)]
#[tactic(auto, using(crate::proofs::Joined::joining))]
pub(crate) fn args(list: &mut List<Access>, site: Site, args: &List<Expr>) -> Result<(), Memory>
    ensures { OnOk result (list.new ≡ list.old ++ args_accesses site (args_tree args.now)) }
{
    for arg in args.as_slice() {
        expr(list, site, arg)?;
    }
    Ok(())
}

/// Adds the accesses of the operands behind a chain's first one.
#[cycle(exprs)]
#[tactic(auto, using(crate::proofs::Joined::joining))]
fn linked(list: &mut List<Access>, site: Site, links: &List<Link>) -> Result<(), Memory>
    ensures { OnOk result (list.new ≡ list.old ++ links_accesses site (links_tree links.now)) }
{
    for link in links.as_slice() {
        expr(list, site, &link.right)?;
    }
    Ok(())
}

/// Adds the accesses of an expression that may be left out.
#[tactic(auto, using(crate::proofs::Joined::joining))]
pub(crate) fn value(list: &mut List<Access>, site: Site, value: &Option<Expr>) -> Result<(), Memory>
    ensures { OnOk result (list.new ≡ list.old ++ value_accesses site (option_map expr_tree value.now)) }
{
    match value {
        None => Ok(()),
        Some(value) => expr(list, site, value),
    }
}

/// Adds the accesses of a change: those of its value, and behind them that of its target.
#[tactic(auto, using(crate::proofs::Joined::joining))]
pub(crate) fn change(list: &mut List<Access>, site: Site, change: &Change) -> Result<(), Memory>
    ensures { OnOk result (list.new ≡ list.old ++ change_accesses site (change_tree change.now)) }
{
    match change {
        Change::Set(target, _, _, value) => {
            expr(list, site, value)?;
            self::target(list, site, Effect::Change, target)
        }
        Change::After(target, _, _) | Change::Before(target, _, _) => {
            self::target(list, site, Effect::Change, target)
        }
    }
}

/// Adds the accesses of a change that may be left out.
#[tactic(auto, using(crate::proofs::Joined::joining))]
pub(crate) fn step(list: &mut List<Access>, site: Site, step: &Option<Change>) -> Result<(), Memory>
    ensures { OnOk result (list.new ≡ list.old ++ step_accesses site (option_map change_tree step.now)) }
{
    match step {
        None => Ok(()),
        Some(step) => change(list, site, step),
    }
}

/// Adds the accesses of the first values of declarators.
#[tactic(auto, using(crate::proofs::Joined::joining))]
pub(crate) fn declarators(
    list: &mut List<Access>,
    site: Site,
    declarators: &List<Declarator>,
) -> Result<(), Memory>
    ensures { OnOk result (list.new ≡ list.old ++ declarators_accesses site (map declarator_tree declarators.now)) }
{
    for declarator in declarators.as_slice() {
        value(list, site, &declarator.first)?;
    }
    Ok(())
}

/// Adds the accesses of what stands before the first semicolon in the head of a `for`.
#[tactic(auto, using(crate::proofs::Joined::joining))]
pub(crate) fn start(list: &mut List<Access>, site: Site, start: &Start) -> Result<(), Memory>
    ensures { OnOk result (list.new ≡ list.old ++ start_accesses site (start_tree start.now)) }
{
    match start {
        Start::Empty => Ok(()),
        Start::Declare(_, list_of) => declarators(list, site, list_of),
        Start::Change(next) => change(list, site, next),
    }
}
