//! The one walk over the items of a task's clauses, in their order.

ghost use Rattle.std.specs.Prelude.{◌≡◌, OnOk, map};
ghost use Rattle.lowering_draft.specs.Items.{with_items};
ghost use Rattle.lowering_relation.specs.Names.{told_at};
ghost use Rattle.os_ast.specs.ClauseMembers.{Item, members, clause_members};
ghost use Rattle.os_ast.specs.Views.{clause_item_tree, clause_kind_tree, clause_tree};

use crate::told::Told;
use os_ast::{Clause, ClauseItem, ClauseKind, Direction};
use os_io::{List, Memory};

/// What to do with each item of a task's clauses, for the walk below.
pub trait ItemVisitor {
    ghost use Rattle.std.specs.Prelude.{ℕ};
    ghost use Rattle.os_ast.specs.Trees.{ClauseItemTree};
    ghost use Rattle.os_ast.specs.declared.names.Direction.{Direction};
    ghost use Rattle.os_ast.specs.declared.names.Resolved.{Resolved};

    /// What the walk adds to, as a draft or a list.
    type Made: Drop;

    // What there is behind an item, by what names mean.
    ghost with_item: { (ℕ → Resolved) → Direction → ClauseItemTree → Self.Made → Self.Made };

    /// Adds what an item makes.
    fn visit(
        &self,
        made: &mut Self::Made,
        told: &Told<'_>,
        direction: Direction,
        item: &ClauseItem,
    ) -> Result<(), Memory>
        ensures { OnOk result (made.new ≡ with_item (told_at told.now.names.now) direction (clause_item_tree item.now) made.old) };
}

/// Visits the items of a task's clauses, in their order. A `firstprivate` clause has none.
#[tactic(auto, using(crate::proofs::Rules::visits))]
pub fn visit_items<V: ItemVisitor>(
    visitor: &V,
    made: &mut V::Made,
    told: &Told<'_>,
    clauses: &List<Clause>,
) -> Result<(), Memory>
    ensures { OnOk result (made.new ≡ with_items (V.with_item (told_at told.now.names.now)) (members (map clause_tree clauses.now)) made.old) }
{
    for clause in clauses.as_slice() {
        visit_clause(visitor, made, told, &clause.kind)?;
    }
    Ok(())
}

/// Visits the items of a clause.
#[tactic(auto, using(crate::proofs::Rules::visits))]
fn visit_clause<V: ItemVisitor>(
    visitor: &V,
    made: &mut V::Made,
    told: &Told<'_>,
    kind: &ClauseKind,
) -> Result<(), Memory>
    ensures { OnOk result (made.new ≡ with_items (V.with_item (told_at told.now.names.now)) (clause_members (clause_kind_tree kind.now)) made.old) }
{
    match kind {
        ClauseKind::Input(items) => visit_all(visitor, made, told, Direction::Reads, items),
        ClauseKind::Output(items) => visit_all(visitor, made, told, Direction::Writes, items),
        ClauseKind::Firstprivate(_) => Ok(()),
    }
}

/// Visits items of one direction.
#[tactic(auto, using(crate::proofs::Rules::visits))]
fn visit_all<V: ItemVisitor>(
    visitor: &V,
    made: &mut V::Made,
    told: &Told<'_>,
    direction: Direction,
    items: &List<ClauseItem>,
) -> Result<(), Memory>
    ensures { OnOk result (made.new
        ≡ with_items (V.with_item (told_at told.now.names.now)) (map (Item direction) (map clause_item_tree items.now)) made.old) }
{
    for item in items.as_slice() {
        visitor.visit(made, told, direction, item)?;
    }
    Ok(())
}
