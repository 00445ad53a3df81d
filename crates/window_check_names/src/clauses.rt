//! The clauses of a task.

ghost use Rattle.std.specs.Prelude.{◌≡◌, ◌+◌, ◌≤◌, ◌∷◌, [], OnOk, IfOk, length, map, option_map};
ghost use Rattle.os_ast.specs.Notes.Clauses.{members_notes, member_notes, window_notes, shape_of};
ghost use Rattle.os_ast.specs.Notes.Expressions.{index_notes};
ghost use Rattle.os_ast.specs.Notes.Kinds.{Used};
ghost use Rattle.os_ast.specs.ClauseMembers.{Item, Private, members, clause_members};
ghost use Rattle.os_ast.specs.Views.{clause_tree, clause_kind_tree, clause_item_tree, join_tree, index_tree, target_tree};
ghost use Rattle.os_ast.specs.declared.names.Use.TheVariants as usage;
ghost use Rattle.window_check_names.specs.Findings.{noted};
ghost use Rattle.window_check_names.specs.Members.{none_listed, after_member, after_members, listed_notes};
ghost use Rattle.window_check_laws.specs.Room.{room_end};

use crate::expressions::{indexed, place};
use crate::found::Found;
use crate::members::{Listed, item_name};
use crate::scopes::Scopes;
use crate::uses::used;
use os_ast::{Clause, ClauseItem, ClauseKind, Direction, Index, Join, Name, Role, Shape, Use};
use os_io::{List, Memory};
use std::alloc::Global;

/// Whether there is an index.
fn shape_of(index: &Option<Index>) -> Shape
    ensures { result ≡ shape_of (option_map index_tree index.now) }
{
    match index {
        None => Shape::Bare,
        Some(_) => Shape::Indexed,
    }
}

/// Judges what stands behind the arrow of an item.
fn joined(scopes: &Scopes, found: &mut Found, join: &Join) -> Result<(), Memory>
    ensures { OnOk result (found.new ≡ noted found.old (Used scopes.now join.now.name (usage.Joined (shape_of (option_map index_tree join.now.burst)))
        ∷ index_notes scopes.now (option_map index_tree join.now.burst))) }
{
    used(scopes, found, join.name, Use::Joined(shape_of(&join.burst)))?;
    indexed(scopes, found, &join.burst)
}

/// Judges the name that an item has in the task's body, and what stands behind its arrow.
fn window(
    scopes: &Scopes,
    found: &mut Found,
    listed: &Listed,
    item: &ClauseItem,
) -> Result<(), Memory>
    ensures { OnOk result (found.new ≡ noted found.old (window_notes scopes.now listed.now.names (target_tree item.now.stream)
        (option_map join_tree item.now.window))) }
{
    let name = item_name(item);
    found.add_violation(name.mark, listed.again(name))?;
    match &item.window {
        None => Ok(()),
        Some(join) => joined(scopes, found, join),
    }
}

/// Judges an item of a clause, and lists it.
#[tactic(auto, using(crate::proofs::Lists::lists))]
fn item(
    scopes: &Scopes,
    found: &mut Found,
    listed: &mut Listed,
    direction: Direction,
    item: &ClauseItem,
) -> Result<(), Memory>
    requires { length listed.old.items ≤ room_end }
    ensures found { OnOk result (found.new ≡ noted found.old (member_notes scopes.now listed.old.names (Item direction (clause_item_tree item.now)))) }
    ensures listed { OnOk result (listed.new ≡ after_member scopes.now listed.old (Item direction (clause_item_tree item.now))) }
{
    place(scopes, found, Role::Flow(direction), &item.stream)?;
    window(scopes, found, listed, item)?;
    listed.add_item(scopes, direction, item)
}

/// Judges the items of a clause, and lists them.
fn items(
    scopes: &Scopes,
    found: &mut Found,
    listed: &mut Listed,
    direction: Direction,
    items: &List<ClauseItem>,
) -> Result<(), Memory>
    requires { length listed.old.items + length items.now ≤ room_end }
    ensures found { OnOk result (found.new ≡ noted found.old (listed_notes scopes.now listed.old (map (Item direction) (map clause_item_tree items.now)))) }
    ensures listed { OnOk result (listed.new ≡ after_members scopes.now listed.old (map (Item direction) (map clause_item_tree items.now))) }
{
    for next in items.as_slice() {
        item(scopes, found, listed, direction, next)?;
    }
    Ok(())
}

/// Judges a name of `firstprivate`, and lists it.
fn private(
    scopes: &Scopes,
    found: &mut Found,
    listed: &mut Listed,
    name: Name,
) -> Result<(), Memory>
    ensures found { OnOk result (found.new ≡ noted found.old (member_notes scopes.now listed.old.names (Private name))) }
    ensures listed { OnOk result (listed.new ≡ after_member scopes.now listed.old (Private name)) }
{
    found.add_violation(name.mark, listed.again(name))?;
    used(scopes, found, name, Use::Private)?;
    listed.add_private(scopes, name)
}

/// Judges the names of a `firstprivate` clause, and lists them.
#[tactic(auto, using(crate::proofs::Lists::lists))]
fn privates(
    scopes: &Scopes,
    found: &mut Found,
    listed: &mut Listed,
    names: &List<Name>,
) -> Result<(), Memory>
    ensures found { OnOk result (found.new ≡ noted found.old (listed_notes scopes.now listed.old (map Private names.now))) }
    ensures listed { OnOk result (listed.new ≡ after_members scopes.now listed.old (map Private names.now)) }
{
    for name in names.as_slice() {
        private(scopes, found, listed, *name)?;
    }
    Ok(())
}

/// Judges a clause, and lists what it names.
fn clause(
    scopes: &Scopes,
    found: &mut Found,
    listed: &mut Listed,
    clause: &Clause,
) -> Result<(), Memory>
    requires { length listed.old.items + length (clause_members (clause_kind_tree clause.now.kind)) ≤ room_end }
    ensures found { OnOk result (found.new ≡ noted found.old (listed_notes scopes.now listed.old (clause_members (clause_kind_tree clause.now.kind)))) }
    ensures listed { OnOk result (listed.new ≡ after_members scopes.now listed.old (clause_members (clause_kind_tree clause.now.kind))) }
{
    match &clause.kind {
        ClauseKind::Input(list) => items(scopes, found, listed, Direction::Reads, list),
        ClauseKind::Output(list) => items(scopes, found, listed, Direction::Writes, list),
        ClauseKind::Firstprivate(names) => privates(scopes, found, listed, names),
    }
}

/// Judges the clauses of a task, one after another. The answer is what they list.
#[tactic(auto, using(crate::proofs::Listing::listing))]
pub fn clauses(
    alloc: Global,
    scopes: &Scopes,
    found: &mut Found,
    clauses: &List<Clause>,
) -> Result<Listed, Memory>
    requires { length (members (map clause_tree clauses.now)) ≤ room_end }
    ensures found { OnOk result (found.new ≡ noted found.old (members_notes scopes.now [] (members (map clause_tree clauses.now)))) }
    ensures listed { IfOk result (λ listed. listed ≡ after_members scopes.now none_listed (members (map clause_tree clauses.now))) }
{
    let mut listed = Listed::new(alloc);
    for next in clauses.as_slice() {
        clause(scopes, found, &mut listed, next)?;
    }
    Ok(listed)
}
