//! Giving up the elements of a stream that nobody reads any more.

ghost use Rattle.std.specs.Prelude.{◌≡◌, ◌≤◌, IfOk, List, Option, OnOk, drop, length, max};
ghost use Rattle.flow_core_laws.specs.declared.elem.Elem.{Elem};

use flow_core_laws::Elem;
use os_io::{List, Memory};
use std::alloc::Global;

/// Gives up the elements of a stream before a cursor, where they are more than those that stay. It answers the position of the
/// first one that stays.
pub(crate) fn give_up_on(
    alloc: Global,
    elements: &mut List<Option<Elem>>,
    first: u64,
    cursor: u64,
) -> Result<u64, Memory>
    ensures elements { IfOk result (λ now. (all : List (Option Elem)) → first ≤ length all → elements.old ≡ drop first all
        → (now ≤ length all) × (elements.new ≡ drop now all)) }
    ensures few { IfOk result (λ now. now ≤ max first cursor) }
{
    let passed = cursor.saturating_sub(first).min(elements.len() as u64);
    if passed <= elements.len() as u64 / 2 {
        return Ok(first);
    }
    let left = List::from_slice(alloc, &elements.as_slice()[passed as usize..])?;
    *elements = left;
    Ok(first + passed)
}
