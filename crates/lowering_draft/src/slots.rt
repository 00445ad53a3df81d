//! How many slots a body takes: the sum over its declarations.

ghost use Rattle.std.specs.Prelude.{◌≡◌, map, option_map, unwrap_or};
ghost use Rattle.lowering_draft.specs.Emission.Units.{capped};
ghost use Rattle.os_ast.specs.Notes.Declarators.{within_limit};
ghost use Rattle.os_ast.specs.Views.{declarator_tree, expr_tree, index_tree, start_tree, stmt_tree, stmts_tree};
ghost use Rattle.lowering_relation.specs.Names.{told_at};
ghost use Rattle.lowering_relation.specs.Programs.{constant_size, size_by};
ghost use Rattle.window_check_laws.specs.Sums.{declarators_slots, declared_slots, start_slots, stmt_slots, stmts_slots};

use crate::told::Told;
use os_ast::{Declarator, Expr, Owner, SIZE_LIMIT, Start, Stmt, Target, What};
use os_io::List;

/// The slots of a statement, as far as a `u32` goes.
#[cycle(slots)]
#[tactic(auto, using(crate::proofs::Rules::slots))]
pub fn stmt_slots(told: &Told<'_>, owner: Owner, stmt: &Stmt) -> u32
    ensures { result ≡ capped (stmt_slots owner (size_by (told_at told.now.names.now)) (stmt_tree stmt.now)) }
{
    match stmt {
        Stmt::Block(stmts) => stmts_slots(told, owner, stmts),
        Stmt::Declare(_, declarators) => declarators_slots(told, owner, declarators),
        Stmt::If(_, first, None) => stmt_slots(told, owner, first),
        Stmt::If(_, first, Some(second)) => {
            stmt_slots(told, owner, first).saturating_add(stmt_slots(told, owner, second))
        }
        Stmt::While(_, body) => stmt_slots(told, owner, body),
        Stmt::For(head, body) => {
            start_slots(told, owner, &head.start).saturating_add(stmt_slots(told, owner, body))
        }
        Stmt::Empty
        | Stmt::Change(_)
        | Stmt::Call(_)
        | Stmt::Break(_)
        | Stmt::Continue(_)
        | Stmt::Return(_, _)
        | Stmt::Task(_)
        | Stmt::Tick(_)
        | Stmt::Taskwait(_) => 0,
    }
}

/// The slots of the statements of a block.
#[cycle(slots)]
#[tactic(auto, using(crate::proofs::Rules::slots))]
pub fn stmts_slots(told: &Told<'_>, owner: Owner, stmts: &List<Stmt>) -> u32
    ensures { result ≡ capped (stmts_slots owner (size_by (told_at told.now.names.now)) (stmts_tree stmts.now)) }
{
    let mut sum: u32 = 0;
    for stmt in stmts.as_slice() {
        sum = sum.saturating_add(stmt_slots(told, owner, stmt));
    }
    sum
}

/// The slots of what stands before the first `;` in the head of a `for`.
fn start_slots(told: &Told<'_>, owner: Owner, start: &Start) -> u32
    ensures { result ≡ capped (start_slots owner (size_by (told_at told.now.names.now)) (start_tree start.now)) }
{
    match start {
        Start::Declare(_, declarators) => declarators_slots(told, owner, declarators),
        Start::Empty | Start::Change(_) => 0,
    }
}

/// The slots of declarators.
#[tactic(auto, using(crate::proofs::Rules::slots))]
fn declarators_slots(told: &Told<'_>, owner: Owner, declarators: &List<Declarator>) -> u32
    ensures { result ≡ capped (declarators_slots owner (size_by (told_at told.now.names.now)) (map declarator_tree declarators.now)) }
{
    let mut sum: u32 = 0;
    for declarator in declarators.as_slice() {
        sum = sum.saturating_add(declared_slots(told, owner, declarator));
    }
    sum
}

/// The slots of a declarator: streams have none, and a window of `main` has one.
fn declared_slots(told: &Told<'_>, owner: Owner, declarator: &Declarator) -> u32
    ensures { result ≡ declared_slots owner (size_by (told_at told.now.names.now)) declarator.now.stream (option_map index_tree declarator.now.size) }
{
    if declarator.stream {
        return 0;
    }
    match &declarator.size {
        None => 1,
        Some(index) => match owner {
            Owner::OfMain => 1,
            Owner::OfFunction | Owner::OfTask => size_by(told, &index.value),
        },
    }
}

/// The size of an array: a number, or the name of a constant.
fn size_by(told: &Told<'_>, size: &Expr) -> u32
    ensures { result ≡ size_by (told_at told.now.names.now) (expr_tree size.now) }
{
    match size {
        Expr::Number(number) | Expr::Wide(number) => limited(i64::from(*number)),
        Expr::Place(Target { name, index: None }) => constant_size(told.at(name.mark.place).what),
        _ => 0,
    }
}

/// The size that the name of a constant is.
fn constant_size(what: What) -> u32
    ensures { result ≡ constant_size what }
{
    match what {
        What::Constant(value) => limited(i64::from(value)),
        What::Function(_)
        | What::Scalar(_)
        | What::Array { .. }
        | What::Window(_)
        | What::Stream { .. }
        | What::Element(_)
        | What::View(_) => 0,
    }
}

/// A size from 1 to the limit, or 0.
fn limited(value: i64) -> u32
    ensures { result ≡ unwrap_or (within_limit value) 0 }
{
    if value >= 1 && value <= SIZE_LIMIT as i64 {
        value as u32
    } else {
        0
    }
}
