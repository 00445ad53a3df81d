//! The sites of tasks: what each captures, and its clause items.

ghost use Rattle.std.specs.Prelude.{◌≡◌, [], IfOk, get_or, map, option_map};
ghost use Rattle.os_ast.specs.ClauseMembers.{members};
ghost use Rattle.os_ast.specs.Views.{clause_item_tree, clause_tree, join_tree};
ghost use Rattle.lowering_relation.specs.Names.{told_at};
ghost use Rattle.lowering_relation.specs.Tasks.{is_write, site_item, site_items, window_of};

use crate::clause_items::{ItemVisitor, visit_items};
use crate::names::{first_of, slot_of};
use crate::told::Told;
use os_ast::{Clause, ClauseItem, Direction, Join};
use os_code::SiteItem;
use os_io::{List, Memory};
use std::alloc::Global;

/// The slots of `main` that the task of this number captures.
pub fn captured_at(captured: &[List<u32>], number: usize) -> &[u32]
    ensures { result.now ≡ get_or captured.now number [] }
{
    match captured.get(number) {
        Some(slots) => slots.as_slice(),
        None => &[],
    }
}

/// The items of a task's clauses.
#[tactic(auto, using(crate::proofs::Rules::sites))]
pub fn site_items(
    alloc: Global,
    told: &Told<'_>,
    clauses: &List<Clause>,
) -> Result<List<SiteItem>, Memory>
    ensures { IfOk result (λ made. made ≡ site_items (told_at told.now.names.now) (members (map clause_tree clauses.now))) }
{
    let mut made = List::new(alloc);
    visit_items(&SiteItems, &mut made, told, clauses)?;
    Ok(made)
}

/// What a site tells of each item.
struct SiteItems;

impl ItemVisitor for SiteItems {
    ghost use Rattle.std.specs.Prelude.{◌++◌, [], ◌∷◌};
    ghost use Rattle.lowering_relation.specs.Tasks.{site_item};

    type Made = List<SiteItem>;

    ghost with_item = { λ tells direction item made. made ++ site_item tells direction item ∷ [] };

    fn visit(
        &self,
        made: &mut List<SiteItem>,
        told: &Told<'_>,
        direction: Direction,
        item: &ClauseItem,
    ) -> Result<(), Memory> {
        made.push(site_item(told, direction, item))
    }
}

/// An item: its stream, and the slot of its window.
fn site_item(told: &Told<'_>, direction: Direction, item: &ClauseItem) -> SiteItem
    ensures { result ≡ site_item (told_at told.now.names.now) direction (clause_item_tree item.now) }
{
    SiteItem {
        write: is_write(direction),
        stream: first_of(told.at(item.stream.name.mark.place).what),
        window: window_of(told, &item.window),
    }
}

fn is_write(direction: Direction) -> bool
    ensures { result ≡ is_write direction }
{
    match direction {
        Direction::Reads => false,
        Direction::Writes => true,
    }
}

/// The slot of an item's window.
fn window_of(told: &Told<'_>, window: &Option<Join>) -> Option<u32>
    ensures { result ≡ window_of (told_at told.now.names.now) (option_map join_tree window.now) }
{
    match window {
        None => None,
        Some(join) => slot_of(told.at(join.name.mark.place).what),
    }
}
