//! The value of an expression.

ghost use Rattle.std.specs.Prelude.{◌≤◌, map};
ghost use Rattle.cddf_meaning.specs.Answers.{left as pair};
ghost use Rattle.cddf_meaning.specs.Functions.{file_of};
ghost use Rattle.cddf_meaning.specs.Value.{chained, linked, place_value, value, values};
ghost use Rattle.os_ast.specs.Views.{args_tree, expr_tree, item_tree, links_tree, target_tree};
ghost use Rattle.cddf_meaning_plain.specs.Calls.{called};
ghost use Rattle.cddf_meaning_plain_state.specs.Stops.{Evaluates};

use crate::functions::call_function;
use c_int::Types;
use cddf_meaning::operators::type_of_two;
use cddf_meaning_plain_state::links::{link_value, needs_right};
use cddf_meaning_plain_state::names::{Seen, int, scalar, seen_as};
use cddf_meaning_plain_state::operators::{holds, unary};
use cddf_meaning_plain_state::typing::type_of;
use cddf_meaning_plain_state::{BodyState, Stop};
use os_ast::{Call, Expr, Item, Link, Target};
use os_io::List;
use std::alloc::Global;

/// The value of an expression.
#[cycle(meaning)]
pub(crate) fn value(
    alloc: Global,
    file: &[Item],
    expr: &Expr,
    state: &BodyState,
    turns: &mut u64,
) -> Result<i32, Stop>
    ensures gives { Evaluates result turns.new (value (file_of (map item_tree file.now)) (expr_tree expr.now) state.now turns.old) }
    ensures fewer { turns.new ≤ turns.old }
{
    match expr {
        Expr::Number(number) => int(*number),
        Expr::Wide(number) => Ok(number.cast_signed()),
        Expr::Place(target) => place(alloc, file, target, state, turns),
        Expr::Call(call) => called(alloc, file, call, state, turns),
        Expr::Paren(inner) => value(alloc, file, inner, state, turns),
        Expr::Unary(operator, mark, operand) => {
            let number = value(alloc, file, operand, state, turns)?;
            let unsigned = type_of(file, state, operand);
            unary(*operator, mark.line, unsigned, number)
        }
        Expr::Chain(_, first, links) => {
            let number = value(alloc, file, first, state, turns)?;
            let unsigned = type_of(file, state, first);
            chained(alloc, file, unsigned, number, links, state, turns)
        }
        Expr::Choice(condition, first, second) => {
            let chosen = value(alloc, file, condition, state, turns)?;
            if holds(chosen) {
                value(alloc, file, first, state, turns)
            } else {
                value(alloc, file, second, state, turns)
            }
        }
    }
}

/// The value of a name, without an index or with one.
#[cycle(meaning)]
fn place(
    alloc: Global,
    file: &[Item],
    target: &Target,
    state: &BodyState,
    turns: &mut u64,
) -> Result<i32, Stop>
    ensures gives { Evaluates result turns.new (place_value (file_of (map item_tree file.now)) (target_tree target.now) state.now turns.old) }
    ensures fewer { turns.new ≤ turns.old }
{
    let id = target.name.id;
    match &target.index {
        None => scalar(file, state, id),
        Some(index) => {
            let at = value(alloc, file, &index.value, state, turns)?;
            let place = state.checked(id, index.mark.line, at)?;
            Ok(state.element(id, place))
        }
    }
}

/// The links of a chain behind a number of this type.
#[cycle(meaning)]
fn chained(
    alloc: Global,
    file: &[Item],
    unsigned: bool,
    first: i32,
    links: &List<Link>,
    state: &BodyState,
    turns: &mut u64,
) -> Result<i32, Stop>
    ensures gives { Evaluates result turns.new (chained (file_of (map item_tree file.now)) (links_tree links.now) state.now unsigned (pair first turns.old)) }
    ensures fewer { turns.new ≤ turns.old }
{
    let mut left = first;
    let mut unsigned = unsigned;
    for link in links.as_slice() {
        let types = Types {
            left: unsigned,
            right: type_of(file, state, &link.right),
        };
        left = linked(alloc, file, types, left, link, state, turns)?;
        unsigned = type_of_two(link.op, types);
    }
    Ok(left)
}

/// An operator between a number and what stands on its right, by the types of the two.
#[cycle(meaning)]
fn linked(
    alloc: Global,
    file: &[Item],
    types: Types,
    left: i32,
    link: &Link,
    state: &BodyState,
    turns: &mut u64,
) -> Result<i32, Stop>
    ensures gives { Evaluates result turns.new (linked link.now.op link.now.mark.line types.left types.right (pair left turns.old)
        (value (file_of (map item_tree file.now)) (expr_tree link.now.right) state.now)) }
    ensures fewer { turns.new ≤ turns.old }
{
    if !needs_right(link.op, left) {
        return link_value(link, types, left, 0);
    }
    let right = value(alloc, file, &link.right, state, turns)?;
    link_value(link, types, left, right)
}

/// What a call gives.
#[cycle(meaning)]
pub(crate) fn called(
    alloc: Global,
    file: &[Item],
    call: &Call,
    state: &BodyState,
    turns: &mut u64,
) -> Result<i32, Stop>
    ensures gives { Evaluates result turns.new (called (file_of (map item_tree file.now)) call.now.name.id (args_tree call.now.args) state.now turns.old) }
    ensures fewer { turns.new ≤ turns.old }
{
    let args = arguments(alloc, file, &call.args, state, turns)?;
    match seen_as(file, state, call.name.id)? {
        Seen::Function(function) => call_function(alloc, file, function, args.as_slice(), turns),
        Seen::Number(_) | Seen::Other => Ok(0),
    }
}

/// The values of the arguments of a call.
#[cycle(meaning)]
fn arguments(
    alloc: Global,
    file: &[Item],
    args: &List<Expr>,
    state: &BodyState,
    turns: &mut u64,
) -> Result<List<i32>, Stop>
    ensures gives { Evaluates result turns.new (values (file_of (map item_tree file.now)) (args_tree args.now) state.now turns.old) }
    ensures fewer { turns.new ≤ turns.old }
{
    let mut values = List::new(alloc);
    for arg in args.as_slice() {
        let number = value(alloc, file, arg, state, turns)?;
        values.push(number)?;
    }
    Ok(values)
}
