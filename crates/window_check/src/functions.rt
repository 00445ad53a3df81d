//! Constants, functions and the items of a program.

ghost use Rattle.std.specs.Prelude.{◌≡◌, ◌≤◌, ◌<◌, ◌+◌, ◌^◌, OnOk, IfOk, length, map};
ghost use Rattle.os_ast.specs.Leveled.{IsItem, AreAll};
ghost use Rattle.os_ast.specs.Names.{is_declared};
ghost use Rattle.os_ast.specs.Rules.{when};
ghost use Rattle.window_check_names.specs.BrokenRules.{least_rule};
ghost use Rattle.os_ast.specs.declared.rule.Rule.TheVariants.{DeclaredTwice};
ghost use Rattle.os_ast.specs.Notes.Kinds.{Parameter};
ghost use Rattle.os_ast.specs.Notes.Programs.{owner_of, after_param, after_params, params_notes};
ghost use Rattle.os_ast.specs.Notes.Programs.{after_item, item_notes, after_items, items_notes, in_function};
ghost use Rattle.os_ast.specs.Trees as tree;
ghost use Rattle.os_ast.specs.Views.{item_tree};
ghost use Rattle.os_ast.specs.Violations.{is_main, has_main};
ghost use Rattle.os_ast.specs.declared.names.Owner.TheVariants as owners;
ghost use Rattle.os_ast.specs.declared.program.Item.TheVariants as variant;
ghost use Rattle.window_check_names.specs.Findings.{note, noted};
ghost use Rattle.window_check_laws.specs.Room.{HasRoom, item_weight, items_weight, room_end};
ghost use Rattle.window_check_names.specs.Scopes.{around_of};

use crate::statements::stmts;
use os_ast::{Constant, Entity, Form, Function, Item, Name, Owner, Param, Rule};
use os_io::{List, Memory};
use os_lexer::names::MAIN;
use std::alloc::Global;
use window_check_names::broken_rules::{BrokenRules, when};
use window_check_names::{EnclosingBody, Found, Scopes, meaning};

/// Whose body that of a function with this name is: the control program is the function `main`.
fn owner_of(id: u32) -> Owner
    ensures { result ≡ owner_of id }
{
    if id == MAIN {
        Owner::OfMain
    } else {
        Owner::OfFunction
    }
}

/// A name is declared a second time in one scope.
fn twice(scopes: &Scopes, name: Name) -> Option<Rule>
    ensures { result ≡ least_rule (when (is_declared scopes.now name.id) DeclaredTwice) }
{
    when(scopes.is_declared(name.id), Rule::DeclaredTwice)
}

/// Judges a parameter, and declares it.
#[tactic(auto, using(window_check_names::proofs::AddedViolations::added_notes))]
fn param(scopes: &mut Scopes, found: &mut Found, param: Param) -> Result<(), Memory>
    requires { HasRoom scopes.old 1 }
    ensures scopes { OnOk result (scopes.new ≡ after_param scopes.old param) }
    ensures found { OnOk result (found.new ≡ note found.old (Parameter scopes.old param)) }
{
    let Param { ty, name } = param;
    let entity = scopes.scalar();
    found.declare(
        name.mark,
        BrokenRules::one(twice(scopes, name)),
        meaning(entity),
        ty.is_unsigned(),
    )?;
    scopes.take(Form::Scalar);
    scopes.set_unsigned(ty.is_unsigned());
    scopes.declare(name.id, entity)
}

/// Judges the parameters of a function, and puts them in scope.
fn params(scopes: &mut Scopes, found: &mut Found, list: &[Param]) -> Result<(), Memory>
    requires { HasRoom scopes.old (length list.now) }
    ensures scopes { OnOk result (scopes.new ≡ after_params scopes.old list.now) }
    ensures found { OnOk result (found.new ≡ noted found.old (params_notes scopes.old list.now)) }
{
    for next in list {
        param(scopes, found, *next)?;
    }
    Ok(())
}

/// Judges a constant, and declares it.
#[tactic(auto, using(window_check_names::proofs::AddedViolations::added_notes))]
fn constant(scopes: &mut Scopes, found: &mut Found, constant: &Constant) -> Result<(), Memory>
    ensures scopes { OnOk result (scopes.new ≡ after_item scopes.old (tree.Constant constant.now)) }
    ensures found { OnOk result (found.new ≡ noted found.old (item_notes scopes.old (tree.Constant constant.now))) }
{
    let name = constant.name;
    found.add_violation(name.mark, twice(scopes, name))?;
    scopes.set_unsigned(constant.ty.is_unsigned());
    scopes.declare(name.id, Entity::Constant(constant.value()))
}

/// The scopes of a function begin: the one round the body of `main`, and that of the parameters and the body.
fn begin_function(alloc: Global, scopes: &mut Scopes, id: u32) -> Result<EnclosingBody, Memory>
    requires { scopes.old.depth + 2 ≤ room_end }
    ensures scopes { OnOk result (scopes.new ≡ in_function scopes.old id) }
    ensures around { IfOk result (λ around. around ≡ around_of scopes.old) }
{
    let owner = owner_of(id);
    let around = scopes.begin(alloc, owner);
    scopes.declare_round(owner)?;
    scopes.enter();
    Ok(around)
}

/// Judges a function, and declares it behind its body.
fn function(
    alloc: Global,
    scopes: &mut Scopes,
    found: &mut Found,
    function: &Function,
) -> Result<(), Memory>
    requires room { HasRoom scopes.old (item_weight (item_tree (variant.Function function.now))) }
    requires outside { scopes.old.owner ≡ owners.OfFunction }
    ensures scopes { OnOk result (scopes.new ≡ after_item scopes.old (item_tree (variant.Function function.now))) }
    ensures found { OnOk result (found.new ≡ noted found.old (item_notes scopes.old (item_tree (variant.Function function.now)))) }
{
    let name = function.name;
    let names = function.params.list();
    found.add_violation(name.mark, twice(scopes, name))?;
    let around = begin_function(alloc, scopes, name.id)?;
    params(scopes, found, names)?;
    stmts(alloc, scopes, found, &function.body)?;
    scopes.end(around);
    scopes.declare_function(name.id, names.len() as u32, function.ty.is_unsigned())
}

/// Judges a constant or a function, and puts its name in scope.
fn item(alloc: Global, scopes: &mut Scopes, found: &mut Found, item: &Item) -> Result<(), Memory>
    requires room { HasRoom scopes.old (item_weight (item_tree item.now)) }
    requires outside { scopes.old.owner ≡ owners.OfFunction }
    requires leveled { IsItem (item_tree item.now) }
    ensures scopes { OnOk result (scopes.new ≡ after_item scopes.old (item_tree item.now)) }
    ensures found { OnOk result (found.new ≡ noted found.old (item_notes scopes.old (item_tree item.now))) }
{
    match item {
        Item::Constant(next) => constant(scopes, found, next),
        Item::Function(next) => function(alloc, scopes, found, next),
    }
}

/// Judges the items of a program, each with those before it in scope.
pub(crate) fn items(
    alloc: Global,
    scopes: &mut Scopes,
    found: &mut Found,
    items: &List<Item>,
) -> Result<(), Memory>
    requires room { HasRoom scopes.old (items_weight (map item_tree items.now)) }
    requires outside { scopes.old.owner ≡ owners.OfFunction }
    requires leveled { AreAll IsItem (map item_tree items.now) }
    ensures scopes { OnOk result (scopes.new ≡ after_items scopes.old (map item_tree items.now)) }
    ensures found { OnOk result (found.new ≡ noted found.old (items_notes scopes.old (map item_tree items.now))) }
{
    for next in items.as_slice() {
        item(alloc, scopes, found, next)?;
    }
    Ok(())
}

/// Whether an item is a function `main` of type `int` without parameters.
fn is_main(item: &Item) -> bool
    ensures { result ≡ is_main (item_tree item.now) }
{
    match item {
        Item::Constant(_) => false,
        Item::Function(function) => {
            function.name.id == MAIN
                && !function.ty.is_unsigned()
                && function.params.list().is_empty()
        }
    }
}

/// Whether there is a function `main` of type `int` without parameters.
#[tactic(auto, using(crate::proofs::Rules::items))]
pub(crate) fn has_main(items: &List<Item>) -> bool
    ensures { result ≡ has_main (map item_tree items.now) }
{
    for item in items.as_slice() {
        if is_main(item) {
            return true;
        }
    }
    false
}
