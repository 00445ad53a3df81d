//! The sizes of local arrays and of stream arrays.

ghost use Rattle.std.specs.Prelude.{◌≡◌, OnOk};
ghost use Rattle.os_ast.specs.Notes.Declarators.{within_limit, constant_of, size_value, size_of, size_notes};
ghost use Rattle.os_ast.specs.Views.{expr_tree};
ghost use Rattle.window_check_names.specs.Findings.{noted};
ghost use Rattle.window_check_names.specs.Sizes.{bare_name};

use crate::found::Found;
use crate::scopes::Scopes;
use os_ast::{Entity, Expr, Name, SIZE_LIMIT, Target};
use os_io::Memory;

/// A size from 1 to the limit.
fn within_limit(value: i64) -> Option<u32>
    ensures { result ≡ within_limit value }
{
    if value >= 1 && value <= SIZE_LIMIT as i64 {
        Some(value as u32)
    } else {
        None
    }
}

/// The value of a constant.
fn constant_of(entity: Option<Entity>) -> Option<i32>
    ensures { result ≡ constant_of entity }
{
    match entity {
        Some(Entity::Constant(value)) => Some(value),
        _ => None,
    }
}

/// The name that an expression is, where it is nothing else.
fn bare_name(expr: &Expr) -> Option<Name>
    ensures { result ≡ bare_name (expr_tree expr.now) }
{
    match expr {
        Expr::Place(Target { name, index: None }) => Some(*name),
        _ => None,
    }
}

/// The value of a size, where it is a number or the name of a constant.
fn size_value(scopes: &Scopes, size: &Expr) -> Option<i64>
    ensures { result ≡ size_value scopes.now (expr_tree size.now) }
{
    if let Expr::Number(number) | Expr::Wide(number) = size {
        return Some(*number as i64);
    }
    let name = bare_name(size)?;
    let value = constant_of(scopes.entity(name.id))?;
    Some(value as i64)
}

/// A size, where it is a number or the name of a constant and from 1 to the limit.
pub fn size_of(scopes: &Scopes, size: &Expr) -> Option<u32>
    ensures { result ≡ size_of scopes.now (expr_tree size.now) }
{
    let value = size_value(scopes, size)?;
    within_limit(value)
}

/// Judges the name that stands as a size. The names in any other expression there aren't judged.
#[tactic(auto, using(crate::proofs::UsedNames::sizes))]
pub fn size_name(scopes: &Scopes, found: &mut Found, size: &Expr) -> Result<(), Memory>
    ensures { OnOk result (found.new ≡ noted found.old (size_notes scopes.now (expr_tree size.now))) }
{
    let Some(name) = bare_name(size) else {
        return Ok(());
    };
    found.constant(
        name.mark,
        constant_of(scopes.entity(name.id)),
        scopes.is_unsigned(name.id),
    )
}
