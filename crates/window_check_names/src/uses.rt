//! Names that are used: which rules they violate, and what they mean.

ghost use Rattle.std.specs.Prelude.{◌≡◌, OnOk};
ghost use Rattle.os_ast.specs.Names.{lookup, entity_of};
ghost use Rattle.os_ast.specs.Notes.Kinds.{Used};
ghost use Rattle.window_check_names.specs.BrokenRules.{all_rules, rule_list, least_rule};
ghost use Rattle.window_check_names.specs.Findings.{note, judged, collected};
ghost use Rattle.window_check_names.specs.Uses.{no_index, one_index, only_read, misplaced, value_rules, target_rules, call_rules};
ghost use Rattle.window_check_names.specs.Uses.{end_rules, stream_rules, item_rules, private_rules, role_rules, use_rules};

use crate::broken_rules::{BrokenRules, when};
use crate::found::{Found, Judged, add_rules};
use crate::scopes::Scopes;
use os_ast::{Direction, Entity, Name, Role, Rule, Shape, Use, Violation};
use os_io::{List, Memory};
use os_lexer::names::MAIN;

/// Something that isn't an array stands with an index.
fn no_index(shape: Shape) -> Option<Rule>
    ensures { rule_list result ≡ no_index shape }
{
    match shape {
        Shape::Bare => None,
        Shape::Indexed => Some(Rule::WrongKind),
    }
}

/// Something that is an array stands without one.
fn one_index(shape: Shape) -> Option<Rule>
    ensures { rule_list result ≡ one_index shape }
{
    match shape {
        Shape::Bare => Some(Rule::WrongKind),
        Shape::Indexed => None,
    }
}

/// An element of an input item may not be changed.
fn only_read(direction: Direction) -> Option<Rule>
    ensures { rule_list result ≡ only_read direction }
{
    match direction {
        Direction::Reads => Some(Rule::FixedChanged),
        Direction::Writes => None,
    }
}

/// The rules that a name violates as a value.
fn value_rules(shape: Shape, entity: Entity) -> BrokenRules
    ensures { all_rules result ≡ value_rules shape entity }
{
    match entity {
        Entity::Constant(_)
        | Entity::Scalar(_)
        | Entity::Control(_)
        | Entity::InputLength
        | Entity::Element(_, _) => BrokenRules::one(no_index(shape)),
        Entity::Function(_, _) => BrokenRules::one(Some(Rule::WrongKind)),
        Entity::Array(_, _) | Entity::View(_, _) => BrokenRules::one(one_index(shape)),
        Entity::Window(_) => BrokenRules::one(Some(Rule::MisplacedWindow)),
        Entity::Stream(_) => BrokenRules::two(no_index(shape), Some(Rule::MisplacedStream)),
        Entity::Streams(_, _) => BrokenRules::two(one_index(shape), Some(Rule::MisplacedStream)),
    }
}

/// The rules that a name violates as the target of a change.
fn target_rules(shape: Shape, entity: Entity) -> BrokenRules
    ensures { all_rules result ≡ target_rules shape entity }
{
    match entity {
        Entity::Scalar(_) | Entity::Control(_) => BrokenRules::one(no_index(shape)),
        Entity::Constant(_) | Entity::InputLength | Entity::Stream(_) => {
            BrokenRules::two(no_index(shape), Some(Rule::FixedChanged))
        }
        Entity::Function(_, _) => BrokenRules::one(Some(Rule::WrongKind)),
        Entity::Array(_, _) => BrokenRules::one(one_index(shape)),
        Entity::Window(_) => BrokenRules::one(Some(Rule::MisplacedWindow)),
        Entity::Streams(_, _) => BrokenRules::two(one_index(shape), Some(Rule::FixedChanged)),
        Entity::Element(_, direction) => BrokenRules::two(no_index(shape), only_read(direction)),
        Entity::View(_, direction) => BrokenRules::two(one_index(shape), only_read(direction)),
    }
}

/// The rules that a name violates where neither a stream nor a window may stand, nor anything else of its kind.
fn misplaced(entity: Entity) -> BrokenRules
    ensures { all_rules result ≡ misplaced entity }
{
    match entity {
        Entity::Stream(_) | Entity::Streams(_, _) => {
            BrokenRules::two(Some(Rule::WrongKind), Some(Rule::MisplacedStream))
        }
        Entity::Window(_) => BrokenRules::two(Some(Rule::WrongKind), Some(Rule::MisplacedWindow)),
        _ => BrokenRules::one(Some(Rule::WrongKind)),
    }
}

/// The rules that a called name violates, by its number and how many arguments there are.
#[tactic(auto, using(crate::proofs::Noted::collecting))]
fn call_rules(id: u32, args: usize, entity: Entity) -> BrokenRules
    ensures { all_rules result ≡ call_rules id args entity }
{
    match entity {
        Entity::Function(_, params) => BrokenRules::two(
            when(id == MAIN, Rule::WrongKind),
            when(args != params as usize, Rule::ArgumentCount),
        ),
        other => misplaced(other),
    }
}

/// The rule that what stands at the wrong end violates of an item or a tick: `osin` is stream 0 and `osout` stream 1.
#[tactic(auto, using(crate::proofs::Noted::collecting))]
fn end_rule(direction: Direction, number: u32) -> Option<Rule>
    ensures { rule_list result ≡ end_rules direction number }
{
    match direction {
        Direction::Reads => when(number == 1, Rule::WrongEnd),
        Direction::Writes => when(number == 0, Rule::WrongEnd),
    }
}

/// The rules that a name violates as the stream of an item or a tick.
fn stream_rules(direction: Direction, shape: Shape, entity: Entity) -> BrokenRules
    ensures { all_rules result ≡ stream_rules direction shape entity }
{
    match entity {
        Entity::Stream(number) => BrokenRules::two(no_index(shape), end_rule(direction, number)),
        Entity::Streams(_, _) => BrokenRules::one(one_index(shape)),
        Entity::Window(_) => BrokenRules::two(Some(Rule::WrongKind), Some(Rule::MisplacedWindow)),
        _ => BrokenRules::one(Some(Rule::WrongKind)),
    }
}

/// The rules that a name violates behind the `>>` or `<<` of an item.
fn item_rules(shape: Shape, entity: Entity) -> BrokenRules
    ensures { all_rules result ≡ item_rules shape entity }
{
    match entity {
        Entity::Control(_) => BrokenRules::one(no_index(shape)),
        Entity::Window(_) => BrokenRules::one(one_index(shape)),
        other => misplaced(other),
    }
}

/// The rules that a `firstprivate` name violates.
fn private_rules(entity: Entity) -> BrokenRules
    ensures { all_rules result ≡ private_rules entity }
{
    match entity {
        Entity::Control(_) | Entity::InputLength => BrokenRules::one(None),
        other => misplaced(other),
    }
}

/// The rules that a name with an index or without violates, by where it stands.
fn role_rules(role: Role, shape: Shape, entity: Entity) -> BrokenRules
    ensures { all_rules result ≡ role_rules role shape entity }
{
    match role {
        Role::Value => value_rules(shape, entity),
        Role::Changed => target_rules(shape, entity),
        Role::Flow(direction) => stream_rules(direction, shape, entity),
    }
}

/// The rules that a used name violates, by its number.
fn use_rules(id: u32, usage: Use, entity: Entity) -> BrokenRules
    ensures { all_rules result ≡ use_rules id usage entity }
{
    match usage {
        Use::Place(role, shape) => role_rules(role, shape, entity),
        Use::Called(args) => call_rules(id, args, entity),
        Use::Joined(shape) => item_rules(shape, entity),
        Use::Private => private_rules(entity),
    }
}

/// Notes that a name is used: its scalar, its meaning and a violation, or all its violations, as the walk asks.
#[tactic(auto, using(crate::proofs::UsedNames::uses))]
pub(crate) fn used(scopes: &Scopes, found: &mut Found, name: Name, usage: Use) -> Result<(), Memory>
    ensures { OnOk result (found.new ≡ note found.old (Used scopes.now name usage)) }
{
    match found {
        Found::Listing(captured) => captured.add(scopes.entity(name.id)),
        Found::Judging(judged) => judge(scopes, judged, name, usage),
        Found::Collecting(all) => collect(scopes, all, name, usage),
    }
}

/// Notes what a used name means, and the least rule that it violates.
#[tactic(auto, using(crate::proofs::UsedNames::uses))]
fn judge(scopes: &Scopes, all: &mut Judged, name: Name, usage: Use) -> Result<(), Memory>
    ensures { OnOk result (all.new ≡ judged all.old (Used scopes.now name usage)) }
{
    match scopes.entry(name.id) {
        None => {
            all.add_violation(name.mark, Some(Rule::Unknown));
            Ok(())
        }
        Some(entry) => {
            all.add_violation(name.mark, use_rules(name.id, usage, entry.entity).least());
            all.name(name.mark, scopes.meaning(entry.entity), entry.unsigned)
        }
    }
}

/// Adds all rules that a used name violates.
#[tactic(auto, using(crate::proofs::UsedNames::uses))]
fn collect(scopes: &Scopes, all: &mut List<Violation>, name: Name, usage: Use) -> Result<(), Memory>
    ensures { OnOk result (all.new ≡ collected all.old (Used scopes.now name usage)) }
{
    match scopes.entry(name.id) {
        None => add_rules(all, name.mark, BrokenRules::one(Some(Rule::Unknown))),
        Some(entry) => add_rules(all, name.mark, use_rules(name.id, usage, entry.entity)),
    }
}
