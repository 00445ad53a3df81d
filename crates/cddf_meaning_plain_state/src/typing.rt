//! The types of expressions, told by whether they are `unsigned`.

ghost use Rattle.std.specs.Prelude.{◌≡◌, map};
ghost use Rattle.cddf_meaning.specs.File.{flags, type_in};
ghost use Rattle.cddf_meaning.specs.Functions.{file_of};
ghost use Rattle.cddf_meaning.specs.Run.{target_type};
ghost use Rattle.cddf_meaning.specs.ExpressionTypes.{type_behind};
ghost use Rattle.os_ast.specs.Views.{expr_tree, item_tree, links_tree, target_tree};

use crate::body_state::BodyState;
use crate::names::is_unsigned;
use c_int::Types;
use cddf_meaning::operators::{type_of_one, type_of_two};
use os_ast::{Expr, Item, Link, Target};
use os_io::List;

/// Whether a target, or what stands as one, is of the type `unsigned`.
pub fn target_type(file: &[Item], state: &BodyState, target: &Target) -> bool
    ensures { result ≡ target_type (file_of (map item_tree file.now)) state.now (target_tree target.now) }
{
    match &target.index {
        None => is_unsigned(file, state, target.name.id),
        Some(_) => is_unsigned(file, state, target.name.id),
    }
}

/// Whether an expression is of the type `unsigned`.
#[cycle(typing)]
#[tactic(auto, using(os_ast::proofs::Rows::rows))]
pub fn type_of(file: &[Item], state: &BodyState, expr: &Expr) -> bool
    ensures { result ≡ type_in (file_of (map item_tree file.now)) state.now (expr_tree expr.now) }
{
    match expr {
        Expr::Number(_) => false,
        Expr::Wide(_) => true,
        Expr::Place(target) => target_type(file, state, target),
        Expr::Call(call) => is_unsigned(file, state, call.name.id),
        Expr::Paren(inner) => type_of(file, state, inner),
        Expr::Unary(operator, _, operand) => type_of_one(*operator, type_of(file, state, operand)),
        Expr::Chain(_, first, links) => {
            let left = type_of(file, state, first);
            type_behind(file, state, links, left)
        }
        Expr::Choice(_, first, second) => {
            type_of(file, state, first) || type_of(file, state, second)
        }
    }
}

/// The type behind the links of a chain.
#[cycle(typing)]
fn type_behind(file: &[Item], state: &BodyState, links: &List<Link>, first: bool) -> bool
    ensures { result ≡ type_behind (flags (file_of (map item_tree file.now)) state.now) (links_tree links.now) first }
{
    let mut left = first;
    for link in links.as_slice() {
        let right = type_of(file, state, &link.right);
        left = type_of_two(link.op, Types { left, right });
    }
    left
}
