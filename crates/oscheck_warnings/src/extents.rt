//! Sizes of windows, and bursts of output items, that are constants.

ghost use Rattle.std.specs.Prelude.{◌≡◌, ◌++◌, IfOk, OnOk, map, option_map};
ghost use Rattle.os_ast.specs.Views.{declarator_tree, clause_tree, clause_kind_tree, clause_item_tree, join_tree};
ghost use Rattle.os_ast.specs.Views.{stmt_tree, stmts_tree, item_tree, program_tree};
ghost use Rattle.oscheck_warnings.specs.Extents.{extent_of, declarators_extents, join_extents, items_extents, kind_extents, clauses_extents};
ghost use Rattle.oscheck_warnings.specs.Extents.{stmt_extents, stmts_extents, item_extents, extents};
ghost use Rattle.oscheck_warnings.specs.Meanings.{what_at};
ghost use Rattle.oscheck_warnings.specs.Otherwise.{other_extents};

use crate::constants::index_amount;
use crate::extent::{Amount, Bracket, Extent};
use crate::meanings::Meanings;
use os_ast::{Clause, ClauseItem, ClauseKind, Declarator, Item, Join, Program, Stmt};
use os_io::{List, Memory};
use std::alloc::Global;

/// Adds what stands in brackets at a place, where it is a constant.
fn add(
    list: &mut List<Extent>,
    place: u32,
    bracket: Bracket,
    amount: Option<Amount>,
) -> Result<(), Memory>
    ensures { OnOk result (list.new ≡ list.old ++ extent_of place bracket amount) }
{
    match amount {
        None => Ok(()),
        Some(amount) => list.push(Extent {
            place,
            bracket,
            amount,
        }),
    }
}

/// Adds those sizes of declarators that are constants.
#[tactic(auto, using(crate::proofs::Joined::joining))]
fn declarators(
    list: &mut List<Extent>,
    meanings: &Meanings,
    declarators: &List<Declarator>,
) -> Result<(), Memory>
    ensures { OnOk result (list.new ≡ list.old ++ declarators_extents (what_at meanings.now) (map declarator_tree declarators.now)) }
{
    for declarator in declarators.as_slice() {
        let size = index_amount(meanings, &declarator.size);
        add(list, declarator.name.mark.place, Bracket::Size, size)?;
    }
    Ok(())
}

/// Adds the burst behind an item's arrow, where a constant stands there.
fn join(list: &mut List<Extent>, meanings: &Meanings, join: &Option<Join>) -> Result<(), Memory>
    ensures { OnOk result (list.new ≡ list.old ++ join_extents (what_at meanings.now) (option_map join_tree join.now)) }
{
    match join {
        None => Ok(()),
        Some(join) => {
            let burst = index_amount(meanings, &join.burst);
            add(list, join.name.mark.place, Bracket::Burst, burst)
        }
    }
}

/// Adds those bursts of output items that are constants.
#[tactic(auto, using(crate::proofs::Joined::joining))]
fn items(
    list: &mut List<Extent>,
    meanings: &Meanings,
    items: &List<ClauseItem>,
) -> Result<(), Memory>
    ensures { OnOk result (list.new ≡ list.old ++ items_extents (what_at meanings.now) (map clause_item_tree items.now)) }
{
    for item in items.as_slice() {
        join(list, meanings, &item.window)?;
    }
    Ok(())
}

/// Adds the bursts of a clause, where it is an `output`.
fn kind(list: &mut List<Extent>, meanings: &Meanings, kind: &ClauseKind) -> Result<(), Memory>
    ensures { OnOk result (list.new ≡ list.old ++ kind_extents (what_at meanings.now) (clause_kind_tree kind.now)) }
{
    match kind {
        ClauseKind::Output(listed) => items(list, meanings, listed),
        ClauseKind::Input(_) | ClauseKind::Firstprivate(_) => Ok(()),
    }
}

/// Adds the bursts of the `output` clauses among these.
#[tactic(auto, using(crate::proofs::Joined::joining))]
fn clauses(
    list: &mut List<Extent>,
    meanings: &Meanings,
    clauses: &List<Clause>,
) -> Result<(), Memory>
    ensures { OnOk result (list.new ≡ list.old ++ clauses_extents (what_at meanings.now) (map clause_tree clauses.now)) }
{
    for clause in clauses.as_slice() {
        kind(list, meanings, &clause.kind)?;
    }
    Ok(())
}

/// Adds the sizes and bursts that stand in a statement or a declaration.
#[cycle(extents)]
#[tactic(auto, using(crate::proofs::Joined::joining))]
fn stmt(list: &mut List<Extent>, meanings: &Meanings, stmt: &Stmt) -> Result<(), Memory>
    ensures { OnOk result (list.new ≡ list.old ++ stmt_extents (what_at meanings.now) (stmt_tree stmt.now)) }
{
    match stmt {
        Stmt::Empty
        | Stmt::Change(_)
        | Stmt::Call(_)
        | Stmt::Break(_)
        | Stmt::Continue(_)
        | Stmt::Return(_, _)
        | Stmt::Tick(_)
        | Stmt::Taskwait(_) => Ok(()),
        Stmt::Block(inner) => stmts(list, meanings, inner),
        Stmt::Declare(_, declared) => declarators(list, meanings, declared),
        Stmt::If(_, first, second) => {
            self::stmt(list, meanings, first)?;
            otherwise(list, meanings, second)
        }
        Stmt::While(_, body) => self::stmt(list, meanings, body),
        Stmt::For(_, body) => self::stmt(list, meanings, body),
        Stmt::Task(task) => clauses(list, meanings, &task.clauses),
    }
}

/// Adds the sizes and bursts that stand in the statements and declarations of a block.
#[cycle(extents)]
#[tactic(auto, using(crate::proofs::Joined::joining))]
fn stmts(list: &mut List<Extent>, meanings: &Meanings, stmts: &List<Stmt>) -> Result<(), Memory>
    ensures { OnOk result (list.new ≡ list.old ++ stmts_extents (what_at meanings.now) (stmts_tree stmts.now)) }
{
    for next in stmts.as_slice() {
        stmt(list, meanings, next)?;
    }
    Ok(())
}

/// Adds the sizes and bursts of what stands behind `else`, where there is one.
#[cycle(extents)]
#[tactic(auto, using(crate::proofs::Joined::joining))]
fn otherwise(
    list: &mut List<Extent>,
    meanings: &Meanings,
    second: &Option<Box<Stmt>>,
) -> Result<(), Memory>
    ensures { OnOk result (list.new ≡ list.old ++ other_extents (what_at meanings.now) second.now) }
{
    match second {
        None => Ok(()),
        Some(second) => stmt(list, meanings, second),
    }
}

/// Adds the sizes and bursts that stand in an item of the program.
fn item(list: &mut List<Extent>, meanings: &Meanings, item: &Item) -> Result<(), Memory>
    ensures { OnOk result (list.new ≡ list.old ++ item_extents (what_at meanings.now) (item_tree item.now)) }
{
    match item {
        Item::Constant(_) => Ok(()),
        Item::Function(function) => stmts(list, meanings, &function.body),
    }
}

/// The sizes of windows and the bursts of output items of a program that are constants.
#[tactic(auto, using(crate::proofs::Joined::joining))]
pub(crate) fn extents(
    alloc: Global,
    meanings: &Meanings,
    program: &Program,
) -> Result<List<Extent>, Memory>
    ensures { IfOk result (λ list. list ≡ extents (what_at meanings.now) (program_tree program.now)) }
{
    let mut list = List::new(alloc);
    for next in program.items.as_slice() {
        item(&mut list, meanings, next)?;
    }
    Ok(list)
}
