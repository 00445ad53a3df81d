//! Sizes of windows that no window has: their declaration traps wherever a run comes to it.

ghost use Rattle.std.specs.Prelude.{◌≡◌, IfOk};
ghost use Rattle.os_ast.specs.Views.{program_tree};
ghost use Rattle.oscheck_warnings.specs.Extents.{extents};
ghost use Rattle.oscheck_warnings.specs.Meanings.{what_at, meaning_at};
ghost use Rattle.oscheck_warnings.specs.NoSizes.{is_no_size, is_wrong_size};
ghost use Rattle.oscheck_warnings.specs.WindowSizes.{AreWrongSizes};

use crate::bursts::size_slot;
use crate::extent::{Amount, Extent};
use crate::extents::extents;
use crate::meanings::Meanings;
use crate::places::Places;
use flow_core_laws::HORIZON_LIMIT;
use os_ast::{Program, Resolved};
use os_io::Memory;
use std::alloc::Global;

/// Whether no window has so many elements.
fn is_no_size(amount: Amount) -> bool
    ensures { result ≡ is_no_size amount }
{
    match amount {
        Amount::Number(number) => !(0 < number && number < HORIZON_LIMIT + 1),
        Amount::BelowZero => true,
    }
}

/// Whether a constant is the size of a window, and one that no window has.
fn is_wrong_size(meanings: &Meanings, extent: Extent) -> bool
    ensures { result ≡ is_wrong_size (what_at meanings.now) extent }
{
    match size_slot(meanings, extent) {
        Some(_) => is_no_size(extent.amount),
        None => false,
    }
}

/// The places of the windows whose sizes trap, by the constants of the program.
#[tactic(auto, using(crate::proofs::WrongSizes::wrong_sizes))]
fn marked(alloc: Global, meanings: &Meanings, list: &[Extent]) -> Result<Places, Memory>
    ensures { IfOk result (λ places. AreWrongSizes list.now (what_at meanings.now) places) }
{
    let mut places = Places::new(alloc);
    for index in 0..list.len() {
        places.add_if(is_wrong_size(meanings, list[index]), list[index].place)?;
    }
    Ok(places)
}

/// The places of the names of windows that are declared with a constant for a size that isn't from 1 to 65,536. What the names of the
/// program mean is handed in, at each place one.
pub fn wrong_sizes(alloc: Global, program: &Program, names: &[Resolved]) -> Result<Places, Memory>
    ensures { IfOk result (AreWrongSizes (extents (meaning_at names.now) (program_tree program.now)) (meaning_at names.now)) }
{
    let meanings = Meanings::of(alloc, names)?;
    let list = extents(alloc, &meanings, program)?;
    marked(alloc, &meanings, list.as_slice())
}
