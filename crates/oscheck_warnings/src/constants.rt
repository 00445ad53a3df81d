//! The values of constant expressions.

ghost use Rattle.std.specs.Prelude.{◌≡◌, option_map};
ghost use Rattle.os_ast.specs.Views.{expr_tree, target_tree, index_tree};
ghost use Rattle.oscheck_warnings.specs.Extents.{amount_of, named_amount, below, negated_amount, target_amount, amount_in, signed_amount, index_amount};
ghost use Rattle.oscheck_warnings.specs.Meanings.{what_at};

use crate::extent::Amount;
use crate::meanings::Meanings;
use os_ast::{Expr, Index, Target, Unary, What};

/// The value of a constant of the program.
fn amount_of(value: i32) -> Amount
    ensures { result ≡ amount_of value }
{
    if value < 0 {
        Amount::BelowZero
    } else {
        Amount::Number(value.unsigned_abs())
    }
}

/// The value of what a name means, where it is a constant.
fn named_amount(what: Option<What>) -> Option<Amount>
    ensures { result ≡ named_amount what }
{
    match what {
        Some(What::Constant(value)) => Some(amount_of(value)),
        _ => None,
    }
}

/// The value of a number behind a minus.
fn below(number: u32) -> Amount
    ensures { result ≡ below number }
{
    if number == 0 {
        Amount::Number(0)
    } else {
        Amount::BelowZero
    }
}

/// The value of what stands behind a minus, with it.
fn negated_amount(expr: &Expr) -> Option<Amount>
    ensures { result ≡ negated_amount (expr_tree expr.now) }
{
    match expr {
        Expr::Number(number) => Some(below(*number)),
        Expr::Wide(_)
        | Expr::Place(_)
        | Expr::Call(_)
        | Expr::Paren(_)
        | Expr::Unary(_, _, _)
        | Expr::Chain(_, _, _)
        | Expr::Choice(_, _, _) => None,
    }
}

/// The value of a name, where it is a constant.
fn target_amount(meanings: &Meanings, target: &Target) -> Option<Amount>
    ensures { result ≡ target_amount (what_at meanings.now) (target_tree target.now) }
{
    match target.index {
        None => named_amount(meanings.at(target.name.mark.place)),
        Some(_) => None,
    }
}

/// The value of an expression behind a sign.
#[cycle(amounts)]
fn signed_amount(meanings: &Meanings, sign: Unary, operand: &Expr) -> Option<Amount>
    ensures { result ≡ signed_amount sign (amount_in (what_at meanings.now) (expr_tree operand.now)) (expr_tree operand.now) }
{
    match sign {
        Unary::Minus => negated_amount(operand),
        Unary::Plus => amount_in(meanings, operand),
        Unary::Not | Unary::Invert => None,
    }
}

/// The value of a number, with a sign or without, or of a constant.
#[cycle(amounts)]
#[tactic(auto, using(crate::proofs::Joined::joining))]
fn amount_in(meanings: &Meanings, expr: &Expr) -> Option<Amount>
    ensures { result ≡ amount_in (what_at meanings.now) (expr_tree expr.now) }
{
    match expr {
        Expr::Number(number) | Expr::Wide(number) => Some(Amount::Number(*number)),
        Expr::Place(target) => target_amount(meanings, target),
        Expr::Paren(inner) => amount_in(meanings, inner),
        Expr::Unary(sign, _, operand) => signed_amount(meanings, *sign, operand),
        Expr::Call(_) | Expr::Chain(_, _, _) | Expr::Choice(_, _, _) => None,
    }
}

/// The value between brackets, where there are some.
pub(crate) fn index_amount(meanings: &Meanings, index: &Option<Index>) -> Option<Amount>
    ensures { result ≡ index_amount (what_at meanings.now) (option_map index_tree index.now) }
{
    match index {
        None => None,
        Some(index) => amount_in(meanings, &index.value),
    }
}
