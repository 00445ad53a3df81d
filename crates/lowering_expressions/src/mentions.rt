//! Which names an expression mentions.

ghost use Rattle.std.specs.Prelude.{◌≡◌};
ghost use Rattle.os_ast.specs.FreeNames.{args_names, expr_names, links_names, target_names};
ghost use Rattle.os_ast.specs.ClauseMembers.{is_in};
ghost use Rattle.os_ast.specs.Views.{args_tree, expr_tree, links_tree, target_tree};

use os_ast::{Expr, Link, Target};
use os_io::List;

/// Whether an expression mentions a name.
#[cycle(mentions)]
#[tactic(auto, using(crate::proofs::Rules::mentions))]
pub(crate) fn mentions(expr: &Expr, id: u32) -> bool
    ensures { result ≡ is_in id (expr_names (expr_tree expr.now)) }
{
    match expr {
        Expr::Number(_) | Expr::Wide(_) => false,
        Expr::Place(target) => target_mentions(target, id),
        Expr::Call(call) => call.name.id == id || args_mention(&call.args, id),
        Expr::Paren(inner) => mentions(inner, id),
        Expr::Unary(_, _, operand) => mentions(operand, id),
        Expr::Chain(_, first, links) => mentions(first, id) || links_mention(links, id),
        Expr::Choice(condition, first, second) => {
            mentions(condition, id) || mentions(first, id) || mentions(second, id)
        }
    }
}

/// Whether a target mentions a name.
#[cycle(mentions)]
#[tactic(auto, using(crate::proofs::Rules::mentions))]
fn target_mentions(target: &Target, id: u32) -> bool
    ensures { result ≡ is_in id (target_names (target_tree target.now)) }
{
    match &target.index {
        None => target.name.id == id,
        Some(index) => target.name.id == id || mentions(&index.value, id),
    }
}

/// Whether one of the arguments of a call mentions a name.
#[cycle(mentions)]
#[tactic(auto, using(crate::proofs::Rules::mentions))]
fn args_mention(args: &List<Expr>, id: u32) -> bool
    ensures { result ≡ is_in id (args_names (args_tree args.now)) }
{
    for arg in args.as_slice() {
        if mentions(arg, id) {
            return true;
        }
    }
    false
}

/// Whether one of the right sides of a chain mentions a name.
#[cycle(mentions)]
#[tactic(auto, using(crate::proofs::Rules::mentions))]
fn links_mention(links: &List<Link>, id: u32) -> bool
    ensures { result ≡ is_in id (links_names (links_tree links.now)) }
{
    for link in links.as_slice() {
        if mentions(&link.right, id) {
            return true;
        }
    }
    false
}
