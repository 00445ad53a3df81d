//! Declarators: what they declare and take, and which rules they violate.

ghost use Rattle.std.specs.Prelude.{◌≡◌, ◌++◌, ◌&&◌, not, OnOk, map, option_map};
ghost use Rattle.os_ast.specs.Notes.Declarators.{form, sized_form, is_window, sized_notes, declarator_notes, declarators_notes};
ghost use Rattle.os_ast.specs.Notes.Declarators.{after_declarator, after_declarators, after_start, start_notes};
ghost use Rattle.os_ast.specs.Names.{is_declared, typed};
ghost use Rattle.os_ast.specs.Rules.{is_outermost, when};
ghost use Rattle.os_ast.specs.Views.{declarator_tree, index_tree, start_tree};
ghost use Rattle.window_check_names.specs.BrokenRules.{all_rules, rule_list, least_rule};
ghost use Rattle.os_ast.specs.declared.rule.Rule.TheVariants.{DeclaredTwice, Misplaced};
ghost use Rattle.window_check_names.specs.Findings.{noted};
ghost use Rattle.window_check_laws.specs.Room.{HasRoom, declarator_weight, declarators_weight, start_weight};

use os_ast::{Declarator, Form, Index, Owner, Rule, Start, Ty};
use os_io::{List, Memory};
use window_check_names::broken_rules::{BrokenRules, when};
use window_check_names::expressions::{change, expr, value};
use window_check_names::{Found, Scopes, meaning, size_name, size_of};

/// What a declarator with a size, which isn't a stream, declares.
fn sized_form(owner: Owner, size: Option<u32>) -> Form
    ensures { result ≡ sized_form owner size }
{
    match owner {
        Owner::OfMain => Form::Window,
        Owner::OfFunction | Owner::OfTask => Form::Array(size),
    }
}

/// What a declarator declares.
fn form(scopes: &Scopes, declarator: &Declarator) -> Form
    ensures { result ≡ form scopes.now (declarator_tree declarator.now) }
{
    match &declarator.size {
        None if declarator.stream => Form::Stream,
        None => Form::Scalar,
        Some(size) => {
            let size = size_of(scopes, &size.value);
            if declarator.stream {
                Form::Streams(size)
            } else {
                sized_form(scopes.owner(), size)
            }
        }
    }
}

/// Whether this is directly in the outermost block of `main`.
fn is_outermost(scopes: &Scopes) -> bool
    ensures { result ≡ is_outermost scopes.now.owner scopes.now.depth }
{
    match scopes.owner() {
        Owner::OfMain => scopes.depth() == 2,
        Owner::OfFunction | Owner::OfTask => false,
    }
}

/// Whether an array declaration is a window.
fn is_window(owner: Owner) -> bool
    ensures { result ≡ is_window owner }
{
    match owner {
        Owner::OfMain => true,
        Owner::OfFunction | Owner::OfTask => false,
    }
}

/// Judges the size of a declarator: that of a window is any expression.
fn sized(
    scopes: &Scopes,
    found: &mut Found,
    stream: bool,
    size: &Option<Index>,
) -> Result<(), Memory>
    ensures { OnOk result (found.new ≡ noted found.old (sized_notes scopes.now stream (option_map index_tree size.now))) }
{
    match size {
        None => Ok(()),
        Some(size) if is_window(scopes.owner()) && !stream => expr(scopes, found, &size.value),
        Some(size) => size_name(scopes, found, &size.value),
    }
}

/// The rules that a declarator's name violates, where that for the size is handed in.
fn declarator_rules(scopes: &Scopes, declarator: &Declarator, size: Option<Rule>) -> BrokenRules
    ensures { all_rules result ≡ rule_list (least_rule (when (is_declared scopes.now declarator.now.name.id) DeclaredTwice))
        ++ (rule_list size ++ rule_list (least_rule (when (declarator.now.stream && not (is_outermost scopes.now.owner scopes.now.depth)) Misplaced))) }
{
    let twice = when(scopes.is_declared(declarator.name.id), Rule::DeclaredTwice);
    let misplaced = when(declarator.stream && !is_outermost(scopes), Rule::Misplaced);
    BrokenRules::three(twice, size, misplaced)
}

/// Judges a declarator and declares its name, which its first value can see.
fn declarator(scopes: &mut Scopes, found: &mut Found, declarator: &Declarator) -> Result<(), Memory>
    requires { HasRoom scopes.old (declarator_weight (declarator_tree declarator.now)) }
    ensures scopes { OnOk result (scopes.new ≡ after_declarator scopes.old (declarator_tree declarator.now)) }
    ensures found { OnOk result (found.new ≡ noted found.old (declarator_notes scopes.old (declarator_tree declarator.now))) }
{
    let form = form(scopes, declarator);
    let entity = scopes.form_entity(form);
    let rules = declarator_rules(scopes, declarator, scopes.rule_with(form));
    found.declare(
        declarator.name.mark,
        rules,
        meaning(entity),
        scopes.unsigned(),
    )?;
    sized(scopes, found, declarator.stream, &declarator.size)?;
    scopes.take(form);
    scopes.declare(declarator.name.id, entity)?;
    value(scopes, found, &declarator.first)
}

/// Judges declarators, and puts their names in scope.
fn declarators(
    scopes: &mut Scopes,
    found: &mut Found,
    declarators: &List<Declarator>,
) -> Result<(), Memory>
    requires { HasRoom scopes.old (declarators_weight (map declarator_tree declarators.now)) }
    ensures scopes { OnOk result (scopes.new ≡ after_declarators scopes.old (map declarator_tree declarators.now)) }
    ensures found { OnOk result (found.new ≡ noted found.old (declarators_notes scopes.old (map declarator_tree declarators.now))) }
{
    for next in declarators.as_slice() {
        declarator(scopes, found, next)?;
    }
    Ok(())
}

/// Judges a declaration, whose names it puts in scope as variables of its type.
pub(crate) fn declaration(
    scopes: &mut Scopes,
    found: &mut Found,
    ty: Ty,
    list: &List<Declarator>,
) -> Result<(), Memory>
    requires { HasRoom scopes.old (declarators_weight (map declarator_tree list.now)) }
    ensures scopes { OnOk result (scopes.new ≡ after_declarators (typed ty scopes.old) (map declarator_tree list.now)) }
    ensures found { OnOk result (found.new ≡ noted found.old (declarators_notes (typed ty scopes.old) (map declarator_tree list.now))) }
{
    scopes.set_unsigned(ty.is_unsigned());
    declarators(scopes, found, list)
}

/// Judges what stands before the first semicolon in the head of a `for`.
pub(crate) fn start(scopes: &mut Scopes, found: &mut Found, start: &Start) -> Result<(), Memory>
    requires { HasRoom scopes.old (start_weight (start_tree start.now)) }
    ensures scopes { OnOk result (scopes.new ≡ after_start scopes.old (start_tree start.now)) }
    ensures found { OnOk result (found.new ≡ noted found.old (start_notes scopes.old (start_tree start.now))) }
{
    match start {
        Start::Empty => Ok(()),
        Start::Declare(ty, list) => declaration(scopes, found, *ty, list),
        Start::Change(first) => change(scopes, found, first),
    }
}
