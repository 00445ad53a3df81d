ghost use Rattle.std.specs.Prelude.{◌≡◌, ◌≤◌, OnOk, length, option_map};
ghost use Rattle.os_ast.specs.ClauseMembers.{Item, Private, item_name, is_in};
ghost use Rattle.os_ast.specs.Rules.{when};
ghost use Rattle.os_ast.specs.Views.{clause_item_tree, join_tree, target_tree};
ghost use Rattle.window_check_names.specs.BrokenRules.{least_rule};
ghost use Rattle.os_ast.specs.declared.rule.Rule.TheVariants.{ListedTwice};
ghost use Rattle.window_check_names.specs.Members.{none_listed, after_names, after_member};
ghost use Rattle.window_check_laws.specs.Room.{room_end};

use crate::broken_rules::when;
use crate::captures::Captured;
use crate::scopes::Scopes;
use os_ast::{ClauseItem, Direction, Entity, Name, Rule};
use os_io::{List, Memory};
use std::alloc::Global;
use std::collections::BTreeSet;
use std::marker::Model;

/// The name of a task's item, what it is in the task's body, and whether its elements are of the type `unsigned`.
#[derive(Clone, Copy, Debug, PartialEq, Eq)]
pub struct ItemName {
    pub id: u32,
    pub entity: Entity,
    pub unsigned: bool,
}

/// The name that an item has in the task's body: that behind the arrow, or the stream's where it stands alone.
pub(crate) fn item_name(item: &ClauseItem) -> Name
    ensures { result ≡ item_name (target_tree item.now.stream) (option_map join_tree item.now.window) }
{
    match &item.window {
        None => item.stream.name,
        Some(join) => join.name,
    }
}

/// What the clauses of a task list.
#[derive(Drop)]
pub struct Listed {
    names: BTreeSet<u32>,
    items: List<ItemName>,
    captured: Captured,
}

impl Model for Listed {
    ghost use Rattle.window_check_names.specs.Members.{ListedMembers};

    ghost Value = { ListedMembers };

    ghost view = { λ l. record { names = l.names.keys; items = l.items; slots = l.captured } };
}

impl Listed {
    /// Nothing is listed.
    pub fn new(alloc: Global) -> Listed
        ensures { result ≡ none_listed }
    {
        Listed {
            names: BTreeSet::new(alloc),
            items: List::new(alloc),
            captured: Captured::new(alloc),
        }
    }

    /// The rule that a name violates which is listed already.
    pub(crate) fn again(&self, name: Name) -> Option<Rule>
        ensures { result ≡ least_rule (when (is_in name.id self.now.names) ListedTwice) }
    {
        when(self.names.contains(&name.id), Rule::ListedTwice)
    }

    /// Adds an item, by the name that it has in the task's body.
    pub(crate) fn add_item(
        &mut self,
        scopes: &Scopes,
        direction: Direction,
        item: &ClauseItem,
    ) -> Result<(), Memory>
        requires { length self.old.items ≤ room_end }
        ensures { OnOk result (self.new ≡ after_member scopes.now self.old (Item direction (clause_item_tree item.now))) }
    {
        let id = item_name(item).id;
        let number = self.items.len() as u32;
        let entity = match scopes.entity(id) {
            Some(Entity::Window(_)) if item.window.is_some() => Entity::View(number, direction),
            _ => Entity::Element(number, direction),
        };
        self.names.insert(id)?;
        self.items.push(ItemName {
            id,
            entity,
            unsigned: scopes.is_unsigned(id),
        })
    }

    /// Adds a `firstprivate` name.
    pub(crate) fn add_private(&mut self, scopes: &Scopes, name: Name) -> Result<(), Memory>
        ensures { OnOk result (self.new ≡ after_member scopes.now self.old (Private name)) }
    {
        self.names.insert(name.id)?;
        self.captured.add(scopes.entity(name.id))
    }

    /// The items, and the captured scalars that `firstprivate` gave.
    pub fn into_parts(self) -> (List<ItemName>, Captured)
        ensures items { result.0 ≡ self.items }
        ensures captured { result.1 ≡ self.slots }
    {
        let Listed {
            names: _,
            items,
            captured,
        } = self;
        (items, captured)
    }
}

/// Declares the names of items.
pub fn declare_items(scopes: &mut Scopes, items: &List<ItemName>) -> Result<(), Memory>
    ensures { OnOk result (scopes.new ≡ after_names scopes.old items.now) }
{
    for item in items.as_slice() {
        scopes.set_unsigned(item.unsigned);
        scopes.declare(item.id, item.entity)?;
    }
    Ok(())
}
