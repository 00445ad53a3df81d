//! Expressions: their code pushes their value, and each walk tells the type of what it went over.

ghost use Rattle.std.specs.Prelude.{◌≡◌, IfOk, OnOk, [], ◌∷◌, false};
ghost use Rattle.cddf_meaning.specs.ExpressionTypes.{type_behind, type_of_one, type_of_two};
ghost use Rattle.lowering_draft.specs.Draft.{with_instrs};
ghost use Rattle.lowering_draft.specs.Emission.Expressions.{args_code, expr_code, links_code, with_link, with_unary, worked_out};
ghost use Rattle.c_int.specs.declared.operators.Unary.TheVariants as int_unary;
ghost use Rattle.os_ast.specs.Trees as tree;
ghost use Rattle.os_ast.specs.Views.{args_tree, expr_tree, links_tree, target_tree};
ghost use Rattle.lowering_relation.specs.Expressions.{type_by};
ghost use Rattle.lowering_relation.specs.Names.{flags_by, told_at};

use c_int::{Types, apply_unary, unary_for};
use cddf_meaning::operators::{operator_of_one, type_of_one, type_of_two};
use lowering_draft::{Draft, Told, calling, emit_operation, emit_reading, literal, reading_at};
use os_ast::{Binary, Call, Expr, Link, Mark, Target, Unary};
use os_code::Instr;
use os_io::{List, Memory};

/// Adds the code of an expression, which leaves its value on the stack. The answer is whether it is of the type `unsigned`.
#[cycle(expressions)]
#[tactic(auto, using(crate::proofs::Rules::expressions))]
pub fn emit_expr(draft: &mut Draft, told: &Told<'_>, expr: &Expr) -> Result<bool, Memory>
    ensures { IfOk result (λ unsigned. (unsigned ≡ type_by (told_at told.now.names.now) (expr_tree expr.now))
        × (draft.new ≡ expr_code (told_at told.now.names.now) (expr_tree expr.now) draft.old)) }
{
    match expr {
        Expr::Number(number) => {
            draft.emit(Instr::Push(literal(*number)))?;
            Ok(false)
        }
        Expr::Wide(number) => {
            draft.emit(Instr::Push(number.cast_signed()))?;
            Ok(true)
        }
        Expr::Place(target) => emit_place(draft, told, target),
        Expr::Call(call) => emit_call(draft, told, call),
        Expr::Paren(inner) => emit_expr(draft, told, inner),
        Expr::Unary(operator, mark, operand) => emit_unary(draft, told, *operator, *mark, operand),
        Expr::Chain(_, first, links) => {
            let left = emit_expr(draft, told, first)?;
            emit_links(draft, told, left, links)
        }
        Expr::Choice(condition, first, second) => {
            let otherwise = draft.label()?;
            let done = draft.label()?;
            emit_expr(draft, told, condition)?;
            draft.emit(Instr::JumpZero(otherwise.number))?;
            let one = emit_expr(draft, told, first)?;
            draft.emit(Instr::Jump(done.number))?;
            draft.place(otherwise)?;
            let other = emit_expr(draft, told, second)?;
            draft.place(done)?;
            Ok(one || other)
        }
    }
}

/// A name without an index, or with one.
#[cycle(expressions)]
#[tactic(auto, using(crate::proofs::Rules::expressions))]
pub(crate) fn emit_place(
    draft: &mut Draft,
    told: &Told<'_>,
    target: &Target,
) -> Result<bool, Memory>
    ensures { IfOk result (λ unsigned. (unsigned ≡ type_by (told_at told.now.names.now) (tree.Place (target_tree target.now)))
        × (draft.new ≡ expr_code (told_at told.now.names.now) (tree.Place (target_tree target.now)) draft.old)) }
{
    let name = target.name;
    let named = told.at(name.mark.place);
    match &target.index {
        None => emit_reading(draft, named.what, name.mark.line)?,
        Some(index) => {
            emit_expr(draft, told, &index.value)?;
            draft.emit(reading_at(named.what, index.mark.line))?
        }
    }
    Ok(named.unsigned)
}

/// Adds the code of a call: its arguments, the turn that it takes, and the call itself.
#[cycle(expressions)]
#[tactic(auto, using(crate::proofs::Rules::expressions))]
pub fn emit_call(draft: &mut Draft, told: &Told<'_>, call: &Call) -> Result<bool, Memory>
    ensures { IfOk result (λ unsigned.
        (unsigned ≡ type_by (told_at told.now.names.now) (tree.ExprTree.Call call.now.name (args_tree call.now.args)))
        × (draft.new ≡ expr_code (told_at told.now.names.now) (tree.ExprTree.Call call.now.name (args_tree call.now.args)) draft.old)) }
{
    emit_args(draft, told, &call.args)?;
    draft.emit(Instr::Turn)?;
    let named = told.at(call.name.mark.place);
    draft.emit(calling(named.what))?;
    Ok(named.unsigned)
}

/// The arguments of a call, from the first one on.
#[cycle(expressions)]
#[tactic(auto, using(crate::proofs::Rules::expressions))]
fn emit_args(draft: &mut Draft, told: &Told<'_>, args: &List<Expr>) -> Result<(), Memory>
    ensures { OnOk result (draft.new ≡ args_code (told_at told.now.names.now) (args_tree args.now) draft.old) }
{
    for arg in args.as_slice() {
        emit_expr(draft, told, arg)?;
    }
    Ok(())
}

/// An operator with one operand. Of a number, which is an `int`, it is worked out here, where it gives one.
#[cycle(expressions)]
#[tactic(auto, using(crate::proofs::Rules::expressions))]
fn emit_unary(
    draft: &mut Draft,
    told: &Told<'_>,
    operator: Unary,
    mark: Mark,
    operand: &Expr,
) -> Result<bool, Memory>
    ensures { IfOk result (λ unsigned. (unsigned ≡ type_of_one operator (type_by (told_at told.now.names.now) (expr_tree operand.now)))
        × (draft.new ≡ with_unary (worked_out operator (expr_tree operand.now)) operator mark.line
        (type_by (told_at told.now.names.now) (expr_tree operand.now))
        (expr_code (told_at told.now.names.now) (expr_tree operand.now)) draft.old)) }
{
    match worked_out(operator, operand) {
        Some(value) => {
            draft.emit(Instr::Push(value))?;
            Ok(false)
        }
        None => {
            let unsigned = emit_expr(draft, told, operand)?;
            draft.emit(Instr::Unary {
                op: unary_for(unsigned, operator_of_one(operator)),
                line: mark.line,
            })?;
            Ok(type_of_one(operator, unsigned))
        }
    }
}

/// What an operator gives of a number.
fn worked_out(operator: Unary, operand: &Expr) -> Option<i32>
    ensures { result ≡ worked_out operator (expr_tree operand.now) }
{
    match operand {
        Expr::Number(number) => apply_unary(operator_of_one(operator), literal(*number)).ok(),
        Expr::Wide(_)
        | Expr::Place(_)
        | Expr::Call(_)
        | Expr::Paren(_)
        | Expr::Unary(_, _, _)
        | Expr::Chain(_, _, _)
        | Expr::Choice(_, _, _) => None,
    }
}

/// The links of a chain, behind a number of this type, which is on the left of the first one.
#[cycle(expressions)]
#[tactic(auto, using(crate::proofs::Rules::expressions))]
fn emit_links(
    draft: &mut Draft,
    told: &Told<'_>,
    first: bool,
    links: &List<Link>,
) -> Result<bool, Memory>
    ensures { IfOk result (λ unsigned. (unsigned ≡ type_behind (flags_by (told_at told.now.names.now)) (links_tree links.now) first)
        × (draft.new ≡ links_code (told_at told.now.names.now) (links_tree links.now) first draft.old)) }
{
    let mut left = first;
    for link in links.as_slice() {
        left = emit_link(draft, told, left, link)?;
    }
    Ok(left)
}

/// An operator and its right side, behind a number of this type, which is on its left.
#[cycle(expressions)]
#[tactic(auto, using(crate::proofs::Rules::expressions))]
fn emit_link(draft: &mut Draft, told: &Told<'_>, left: bool, link: &Link) -> Result<bool, Memory>
    ensures { IfOk result (λ unsigned.
        (unsigned ≡ type_of_two link.now.op left (type_by (told_at told.now.names.now) (expr_tree link.now.right)))
        × (draft.new ≡ with_link link.now.op link.now.mark.line left (type_by (told_at told.now.names.now) (expr_tree link.now.right))
        (expr_code (told_at told.now.names.now) (expr_tree link.now.right)) draft.old)) }
{
    let line = link.mark.line;
    match link.op {
        Binary::And => {
            emit_and(draft, told, line, &link.right)?;
            Ok(false)
        }
        Binary::Or => {
            emit_or(draft, told, line, &link.right)?;
            Ok(false)
        }
        operator => {
            let right = emit_expr(draft, told, &link.right)?;
            let types = Types { left, right };
            emit_operation(draft, operator, types, line)?;
            Ok(type_of_two(operator, types))
        }
    }
}

/// `&&`: the right side is evaluated where the left one isn't 0.
#[cycle(expressions)]
#[tactic(auto, using(crate::proofs::Rules::expressions))]
fn emit_and(draft: &mut Draft, told: &Told<'_>, line: u32, right: &Expr) -> Result<(), Memory>
    ensures { OnOk result (draft.new ≡ with_link Binary.And line false false (expr_code (told_at told.now.names.now) (expr_tree right.now)) draft.old) }
{
    let zero = draft.label()?;
    let done = draft.label()?;
    draft.emit(Instr::JumpZero(zero.number))?;
    emit_expr(draft, told, right)?;
    emit_truth(draft, line)?;
    draft.emit(Instr::Jump(done.number))?;
    draft.place(zero)?;
    draft.emit(Instr::Push(0))?;
    draft.place(done)
}

/// `||`: the right side is evaluated where the left one is 0.
#[cycle(expressions)]
#[tactic(auto, using(crate::proofs::Rules::expressions))]
fn emit_or(draft: &mut Draft, told: &Told<'_>, line: u32, right: &Expr) -> Result<(), Memory>
    ensures { OnOk result (draft.new ≡ with_link Binary.Or line false false (expr_code (told_at told.now.names.now) (expr_tree right.now)) draft.old) }
{
    let zero = draft.label()?;
    let done = draft.label()?;
    draft.emit(Instr::JumpZero(zero.number))?;
    draft.emit(Instr::Push(1))?;
    draft.emit(Instr::Jump(done.number))?;
    draft.place(zero)?;
    emit_expr(draft, told, right)?;
    emit_truth(draft, line)?;
    draft.place(done)
}

/// 1 where the number on the stack isn't 0, and else 0.
fn emit_truth(draft: &mut Draft, line: u32) -> Result<(), Memory>
    ensures { OnOk result (draft.new ≡ with_instrs draft.old (Instr.Unary int_unary.Not line ∷ Instr.Unary int_unary.Not line ∷ [])) }
{
    draft.emit(Instr::Unary {
        op: c_int::Unary::Not,
        line,
    })?;
    draft.emit(Instr::Unary {
        op: c_int::Unary::Not,
        line,
    })
}
