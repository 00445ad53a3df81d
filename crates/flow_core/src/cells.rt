ghost use Rattle.std.specs.Prelude.{◌≡◌, ◌+◌, ◌<◌, ◌≤◌, ℕ, List, Option, Some, None, IsSome, IfOk, OnOk, length, true};
ghost use Rattle.flow_core_laws.specs.Round.{gathered};
ghost use Rattle.flow_core_laws.specs.declared.elem.Elem.{Elem};
ghost use Rattle.flow_core_laws.specs.Element.{output_element};
ghost use Rattle.flow_core_laws.specs.Plans.{held_at};
ghost use Rattle.flow_core_laws.specs.Poisoning.{values_of, least_root};
ghost use Rattle.flow_core.specs.Counted.{HasOutputs};
ghost use Rattle.flow_core.specs.Gathered.{AreGathered};

use flow_core_laws::{Elem, Piece, lesser, output_element};
use os_io::Memory;

/// Puts the elements of a piece into its cells.
pub(crate) fn fill(cells: &mut Vec<Option<Elem>>, piece: Piece, root: Option<u32>, outputs: &[i32])
    requires fits { piece.at + piece.count ≤ length cells.old.items }
    requires given { HasOutputs (piece.first + piece.count) root outputs.now }
    ensures length { length cells.new.items ≡ length cells.old.items }
    ensures filled { (k : ℕ) → k < piece.count
        → held_at cells.new.items (piece.at + k) ≡ output_element root outputs.now (piece.first + k) }
    ensures before { (c : ℕ) → c < piece.at → held_at cells.new.items c ≡ held_at cells.old.items c }
    ensures behind { (c : ℕ) → piece.at + piece.count ≤ c
        → held_at cells.new.items c ≡ held_at cells.old.items c }
{
    let first = piece.first as usize;
    let at = piece.at as usize;
    for k in 0..piece.count as usize {
        cells[at + k] = Some(output_element(root, outputs, first + k));
    }
}

/// Puts the values of cells, which all hold an element, into a buffer in place of what it holds. The answer is
/// the least root among those that are poison.
pub fn gather(cells: &[Option<Elem>], into: &mut Vec<i32>) -> Result<Option<u32>, Memory>
    requires { IsSome (gathered cells.now) }
    ensures root { (elements : List Elem) → gathered cells.now ≡ Some elements
        → IfOk result (λ root. root ≡ least_root elements) }
    ensures values { (elements : List Elem) → gathered cells.now ≡ Some elements
        → OnOk result (into.new.items ≡ values_of elements) }
{
    fit(into, cells.len())?;
    if put_values(into.as_mut_slice(), cells) {
        return Ok(None);
    }
    gather_all(cells, into)
}

/// Gives a buffer `count` places, whatever they hold.
pub fn fit(into: &mut Vec<i32>, count: usize) -> Result<(), Memory>
    ensures { OnOk result (length into.new.items ≡ count) }
{
    if into.len() == count {
        return Ok(());
    }
    into.resize(count, 0)?;
    Ok(())
}

/// Puts the values of cells into as many places, up to the first one that holds poison. It answers whether all hold a value, as they
/// mostly do.
fn put_values(into: &mut [i32], cells: &[Option<Elem>]) -> bool
    requires { length into.old ≡ length cells.now }
    ensures { result ≡ true → AreGathered cells.now None into.new }
{
    for number in 0..cells.len() {
        let Some(Elem::Value(value)) = cells[number] else {
            return false;
        };
        into[number] = value;
    }
    true
}

/// Puts the values of cells into a buffer, one after the other, and finds the least root.
fn gather_all(cells: &[Option<Elem>], into: &mut Vec<i32>) -> Result<Option<u32>, Memory>
    requires { IsSome (gathered cells.now) }
    ensures root { (elements : List Elem) → gathered cells.now ≡ Some elements
        → IfOk result (λ root. root ≡ least_root elements) }
    ensures values { (elements : List Elem) → gathered cells.now ≡ Some elements
        → OnOk result (into.new.items ≡ values_of elements) }
{
    into.clear();
    let mut least = None;
    for cell in cells {
        match cell {
            Some(Elem::Value(value)) => into.push(*value)?,
            Some(Elem::Poison(root)) => least = Some(lesser(least, *root)),
            None => {}
        }
    }
    Ok(least)
}
