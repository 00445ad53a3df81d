ghost use Rattle.std.specs.Prelude.{◌≡◌, ℕ, [], ◌∷◌, ◌+◌, ◌-◌, ◌++◌, ◌^◌, ◌<◌, ◌≤◌, All, IfOk, None, OnOk};
ghost use Rattle.std.specs.Prelude.{count_by, is_none, length, map, min, pos, replicate, slice_index, sum_by};
ghost use Rattle.std.specs.List.{flat_map, range_with_len};
ghost use Rattle.flow_core_laws.specs.declared.elem.Elem.TheVariants.{Value};
ghost use Rattle.stream_match.specs.declared.stretch.Stretch.{Stretch};
ghost use Rattle.stream_match.specs.EpochPlan.{opening_element};
ghost use Rattle.stream_match.specs.EpochCode.{AreSorted, IsFirstFrom, empty_in, filled_cells};

use crate::kept::Kept;
use crate::look_up::{epoch_opening, first_from, first_from_on, is_kept_in};
use crate::stretch::Stretch;
use flow_core_laws::Elem;
use os_io::{List, Memory};

/// The cells of a plan, with their elements at opening, and how many of each frame's and of the sink's are empty.
#[derive(Drop)]
pub(crate) struct Filled {
    pub(crate) cells: List<Option<Elem>>,
    pub(crate) waits: Vec<u32>,
}

/// Adds the cells of stretches, with their elements at opening, and counts those that are empty by the frames that they go
/// into.
pub(crate) fn fill(
    cells: &mut List<Option<Elem>>,
    waits: &mut Vec<u32>,
    kept: &[Kept],
    input: &[u8],
    stretches: &[Stretch],
) -> Result<(), Memory>
    requires kept { AreSorted kept.now }
    requires small { All (λ (s : Stretch). s.first + s.count < 2 ^ 64) stretches.now }
    requires into { All (λ (s : Stretch). s.to < length waits.old.items) stretches.now }
    requires few { (f : ℕ) → slice_index waits.old.items f + length (flat_map (filled_cells input.now kept.now) stretches.now) < 2 ^ 32 }
    ensures cells { OnOk result (cells.new ≡ cells.old ++ flat_map (filled_cells input.now kept.now) stretches.now) }
    ensures frames { OnOk result (length waits.new.items ≡ length waits.old.items) }
    ensures waits { OnOk result ((f : ℕ) → f < length waits.old.items
        → slice_index waits.new.items f ≡ slice_index waits.old.items f + sum_by (empty_in input.now kept.now f) stretches.now) }
{
    for stretch in stretches {
        let empty = fill_one(cells, kept, input, *stretch)?;
        waits[stretch.to as usize] += empty;
    }
    Ok(())
}

/// Adds the cells of a stretch, and tells how many of them are empty.
fn fill_one(
    cells: &mut List<Option<Elem>>,
    kept: &[Kept],
    input: &[u8],
    stretch: Stretch,
) -> Result<u32, Memory>
    requires kept { AreSorted kept.now }
    requires small { stretch.first + stretch.count < 2 ^ 64 }
    ensures cells { OnOk result (cells.new ≡ cells.old ++ filled_cells input.now kept.now stretch) }
    ensures empty { IfOk result (λ empty. empty ≡ count_by is_none (filled_cells input.now kept.now stretch)) }
{
    let number = first_from(kept, stretch.stream, stretch.first);
    if is_kept_in(kept, number, stretch) {
        let empty = fill_kept(cells, kept, number, input, stretch)?;
        return Ok(empty);
    }
    let empty = fill_open(cells, input, stretch)?;
    Ok(empty)
}

/// Adds the cells of a stretch of which nothing is kept, and tells how many of them are empty.
fn fill_open(cells: &mut List<Option<Elem>>, input: &[u8], stretch: Stretch) -> Result<u32, Memory>
    requires { stretch.first + stretch.count < 2 ^ 64 }
    ensures cells { OnOk result (cells.new ≡ cells.old ++ map (opening_element input.now stretch.stream) (range_with_len stretch.first stretch.count)) }
    ensures empty { IfOk result (λ empty. empty ≡ count_by is_none (map (opening_element input.now stretch.stream)
        (range_with_len stretch.first stretch.count))) }
{
    if stretch.stream != 0 {
        fill_empty(cells, stretch.count)?;
        return Ok(stretch.count);
    }
    let there = in_input(input, stretch.first, stretch.count);
    fill_given(cells, input, stretch.first, there)?;
    fill_empty(cells, stretch.count - there)?;
    Ok(stretch.count - there)
}

/// How many of the `count` positions from `first` on the input has.
fn in_input(input: &[u8], first: u64, count: u32) -> u32
    ensures { result ≡ min count (length input.now - first) }
{
    let left = (input.len() as u64).saturating_sub(first);
    left.min(u64::from(count)) as u32
}

/// Adds the cells of positions that the input has.
fn fill_given(
    cells: &mut List<Option<Elem>>,
    input: &[u8],
    first: u64,
    count: u32,
) -> Result<(), Memory>
    requires { count ≤ length input.now - first }
    ensures { OnOk result (cells.new ≡ cells.old ++ map (opening_element input.now 0) (range_with_len first count)) }
{
    for offset in 0..count {
        let position = first + u64::from(offset);
        cells.push(Some(element_of(input[position as usize])))?;
    }
    Ok(())
}

/// The element that a byte of the input is.
fn element_of(byte: u8) -> Elem
    ensures { result ≡ Value (pos byte) }
{
    Elem::Value(i32::from(byte))
}

/// Adds cells that hold nothing.
pub(crate) fn fill_empty(cells: &mut List<Option<Elem>>, count: u32) -> Result<(), Memory>
    ensures { OnOk result (cells.new ≡ cells.old ++ replicate count None) }
{
    for _ in 0..count {
        cells.push(None)?;
    }
    Ok(())
}

/// Adds the cells of a stretch, where the first kept element that doesn't lie before it has a number, and tells how many
/// of them are empty.
fn fill_kept(
    cells: &mut List<Option<Elem>>,
    kept: &[Kept],
    number: usize,
    input: &[u8],
    stretch: Stretch,
) -> Result<u32, Memory>
    requires kept { AreSorted kept.now }
    requires number { IsFirstFrom kept.now stretch.stream stretch.first number }
    requires small { stretch.first + stretch.count < 2 ^ 64 }
    ensures cells { OnOk result (cells.new ≡ cells.old ++ filled_cells input.now kept.now stretch) }
    ensures empty { IfOk result (λ empty. empty ≡ count_by is_none (filled_cells input.now kept.now stretch)) }
{
    let mut next = number;
    let mut empty = 0;
    for offset in 0..stretch.count {
        let position = stretch.first + u64::from(offset);
        next = first_from_on(kept, next, stretch.stream, position);
        let element = epoch_opening(kept, next, input, stretch.stream, position);
        cells.push(element)?;
        empty += missing(element);
    }
    Ok(empty)
}

/// How many elements are missing where one should be: one or none.
fn missing(element: Option<Elem>) -> u32
    ensures { result ≡ count_by is_none (element ∷ []) }
{
    if element.is_none() { 1 } else { 0 }
}
