//! Expressions that can neither trap nor take a turn of the budget.

ghost use Rattle.std.specs.Prelude.{◌≡◌, ◌&&◌};
ghost use Rattle.os_ast.specs.Views.{expr_tree, links_tree};
ghost use Rattle.lowering_relation.specs.Changes.{are_quiet, is_quiet, is_quiet_one, is_quiet_two};

use os_ast::{Binary, Expr, Link, Unary};
use os_io::List;

/// Whether an expression can neither trap nor take a turn.
#[cycle(quiet)]
#[tactic(auto, using(crate::proofs::Rules::expressions))]
pub(crate) fn is_quiet(expr: &Expr) -> bool
    ensures { result ≡ is_quiet (expr_tree expr.now) }
{
    match expr {
        Expr::Number(_) | Expr::Wide(_) => true,
        Expr::Place(target) => target.index.is_none(),
        Expr::Call(_) => false,
        Expr::Paren(inner) => is_quiet(inner),
        Expr::Unary(operator, _, operand) => is_quiet_one(*operator) && is_quiet(operand),
        Expr::Chain(_, first, links) => is_quiet(first) && are_quiet(links),
        Expr::Choice(condition, first, second) => {
            is_quiet(condition) && is_quiet(first) && is_quiet(second)
        }
    }
}

/// Whether all links of a chain are quiet.
#[cycle(quiet)]
#[tactic(auto, using(crate::proofs::Rules::expressions))]
fn are_quiet(links: &List<Link>) -> bool
    ensures { result ≡ are_quiet (links_tree links.now) }
{
    for link in links.as_slice() {
        if !is_quiet_link(link) {
            return false;
        }
    }
    true
}

/// Whether an operator never traps, and its right side is quiet.
#[cycle(quiet)]
fn is_quiet_link(link: &Link) -> bool
    ensures { result ≡ (is_quiet_two link.now.op && is_quiet (expr_tree link.now.right)) }
{
    is_quiet_two(link.op) && is_quiet(&link.right)
}

/// Whether an operator with one operand never traps.
fn is_quiet_one(operator: Unary) -> bool
    ensures { result ≡ is_quiet_one operator }
{
    match operator {
        Unary::Minus => false,
        Unary::Plus | Unary::Not | Unary::Invert => true,
    }
}

/// Whether an operator with two operands never traps.
fn is_quiet_two(operator: Binary) -> bool
    ensures { result ≡ is_quiet_two operator }
{
    match operator {
        Binary::Or
        | Binary::And
        | Binary::BitOr
        | Binary::BitXor
        | Binary::BitAnd
        | Binary::Equal
        | Binary::Unequal
        | Binary::Less
        | Binary::LessEqual
        | Binary::Greater
        | Binary::GreaterEqual => true,
        Binary::ShiftLeft
        | Binary::ShiftRight
        | Binary::Add
        | Binary::Subtract
        | Binary::Multiply
        | Binary::Divide
        | Binary::Remainder => false,
    }
}
