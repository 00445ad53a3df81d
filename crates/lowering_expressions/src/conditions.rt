//! Conditions: their code goes on where the value isn't 0, and jumps where it is.

ghost use Rattle.std.specs.Prelude.{◌≡◌, OnOk};
ghost use Rattle.lowering_draft.specs.Draft.{with_instr};
ghost use Rattle.lowering_draft.specs.Emission.Conditions.{condition_code, conditions_code};
ghost use Rattle.lowering_draft.specs.Emission.Expressions.{expr_code};
ghost use Rattle.os_ast.specs.Views.{expr_tree, links_tree};
ghost use Rattle.lowering_relation.specs.Names.{told_at};

use crate::expressions::emit_expr;
use lowering_draft::{Draft, Label, Told};
use os_ast::{Expr, Level, Link};
use os_code::Instr;
use os_io::{List, Memory};

/// A condition. Nothing tests a number that isn't 0, and the operands of `&&` are tested one by one.
#[cycle(conditions)]
#[tactic(auto, using(crate::proofs::Rules::expressions))]
pub fn emit_condition(
    draft: &mut Draft,
    told: &Told<'_>,
    condition: &Expr,
    fails: Label,
) -> Result<(), Memory>
    ensures { OnOk result (draft.new ≡ condition_code (told_at told.now.names.now) (expr_tree condition.now) fails draft.old) }
{
    match condition {
        Expr::Number(number) => {
            if *number == 0 {
                emit_test(draft, told, condition, fails)
            } else {
                Ok(())
            }
        }
        Expr::Paren(inner) => emit_condition(draft, told, inner, fails),
        Expr::Chain(level, first, links) => match level {
            Level::And => {
                emit_condition(draft, told, first, fails)?;
                emit_conditions(draft, told, links, fails)
            }
            Level::Or
            | Level::BitOr
            | Level::BitXor
            | Level::BitAnd
            | Level::Equal
            | Level::Order
            | Level::Shift
            | Level::Sum
            | Level::Product => emit_test(draft, told, condition, fails),
        },
        Expr::Wide(_)
        | Expr::Place(_)
        | Expr::Call(_)
        | Expr::Unary(_, _, _)
        | Expr::Choice(_, _, _) => emit_test(draft, told, condition, fails),
    }
}

/// Emits the tests of the right sides of `&&`, each of which jumps to `fails` at 0.
#[cycle(conditions)]
#[tactic(auto, using(crate::proofs::Rules::expressions))]
fn emit_conditions(
    draft: &mut Draft,
    told: &Told<'_>,
    links: &List<Link>,
    fails: Label,
) -> Result<(), Memory>
    ensures { OnOk result (draft.new ≡ conditions_code (told_at told.now.names.now) (links_tree links.now) fails draft.old) }
{
    for link in links.as_slice() {
        emit_condition(draft, told, &link.right, fails)?;
    }
    Ok(())
}

/// Emits the value of a condition, and the jump to `fails` where it is 0.
fn emit_test(
    draft: &mut Draft,
    told: &Told<'_>,
    condition: &Expr,
    fails: Label,
) -> Result<(), Memory>
    ensures { OnOk result (draft.new
        ≡ with_instr (expr_code (told_at told.now.names.now) (expr_tree condition.now) draft.old) (Instr.JumpZero fails.number)) }
{
    emit_expr(draft, told, condition)?;
    draft.emit(Instr::JumpZero(fails.number))
}
