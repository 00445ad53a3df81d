//! The names of a task's items.

ghost use Rattle.std.specs.Prelude.{◌≡◌, ◌++◌, IfOk, OnOk, map};
ghost use Rattle.os_ast.specs.Views.{clause_item_tree, clause_kind_tree, clause_tree};
ghost use Rattle.cddf_meaning_plain_tasks.specs.Has.{clause_item_ids, clauses_item_ids};
ghost use Rattle.cddf_meaning_plain_tasks.specs.Sought.{item_names};

use crate::naming::item_name;
use os_ast::{Clause, ClauseItem, ClauseKind};
use os_io::{List, Memory};
use std::alloc::Global;

fn add_item_names(items: &List<ClauseItem>, ids: &mut Vec<u32>) -> Result<(), Memory>
    ensures { OnOk result (ids.new.items ≡ ids.old.items ++ item_names (map clause_item_tree items.now)) }
{
    for item in items.as_slice() {
        ids.push(item_name(item))?;
    }
    Ok(())
}

fn add_names_of(kind: &ClauseKind, ids: &mut Vec<u32>) -> Result<(), Memory>
    ensures { OnOk result (ids.new.items ≡ ids.old.items ++ clause_item_ids (clause_kind_tree kind.now)) }
{
    match kind {
        ClauseKind::Input(items) | ClauseKind::Output(items) => add_item_names(items, ids),
        ClauseKind::Firstprivate(_) => Ok(()),
    }
}

/// The names of a task's items in its body, in the order of the clauses.
pub(crate) fn item_ids(alloc: Global, clauses: &List<Clause>) -> Result<Vec<u32>, Memory>
    ensures { IfOk result (λ ids. ids.items ≡ clauses_item_ids (map clause_tree clauses.now)) }
{
    let mut ids = Vec::new(alloc);
    for clause in clauses.as_slice() {
        add_names_of(&clause.kind, &mut ids)?;
    }
    Ok(ids)
}
