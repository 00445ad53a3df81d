//! Bursts of output items that are not the size of their window: such a task traps wherever it is created.

ghost use Rattle.std.specs.Prelude.{◌≡◌, length, IfOk};
ghost use Rattle.os_ast.specs.Views.{program_tree};
ghost use Rattle.oscheck_warnings.specs.Bursts.{window_of, AreWrongBursts};
ghost use Rattle.oscheck_warnings.specs.Extents.{extents};
ghost use Rattle.oscheck_warnings.specs.Meanings.{what_at, meaning_at};
ghost use Rattle.oscheck_warnings.specs.Sizes.{sized, size_slot, burst_slot, is_other, differs_from, differs, is_wrong, AreSizes};

use crate::extent::{Amount, Bracket, Extent};
use crate::extents::extents;
use crate::meanings::Meanings;
use crate::places::Places;
use flow_core_laws::HORIZON_LIMIT;
use os_ast::{Program, Resolved, What};
use os_io::Memory;
use std::alloc::Global;
use std::collections::BTreeMap;

/// The sizes of windows that are constants, by the slots of the windows.
#[derive(Drop)]
struct Sizes {
    by_slot: BTreeMap<u32, Amount>,
}

impl Sizes {
    ghost use Rattle.std.specs.Prelude.{◌≡◌, ◌==◌, ℕ, if◌then◌else◌, Some, None, OnOk};
    ghost use Rattle.oscheck_warnings.specs.Bursts.{is_slot};
    ghost use Rattle.oscheck_warnings.specs.Sizes.{sized};

    /// No window's size is known yet.
    fn new(alloc: Global) -> Sizes
        ensures { (slot : ℕ) → sized result slot ≡ None }
    {
        Sizes {
            by_slot: BTreeMap::new(alloc),
        }
    }

    /// Notes the size of the window in a slot, in place of what was noted there.
    fn add(&mut self, slot: u32, amount: Amount) -> Result<(), Memory>
        ensures { OnOk result ((other : ℕ) → sized self.new other ≡ (if slot == other then Some amount else sized self.old other)) }
    {
        self.by_slot.insert(slot, amount)?;
        Ok(())
    }

    /// Notes the size of the window in a slot; without a slot it notes nothing.
    fn add_if(&mut self, slot: Option<u32>, amount: Amount) -> Result<(), Memory>
        ensures { OnOk result ((other : ℕ) → sized self.new other ≡ (if is_slot slot other then Some amount else sized self.old other)) }
    {
        match slot {
            Some(slot) => self.add(slot, amount),
            None => Ok(()),
        }
    }

    /// The size that was noted of the window in a slot.
    fn of(&self, slot: u32) -> Option<Amount>
        ensures { result ≡ sized self.now slot }
    {
        self.by_slot.get(&slot).copied()
    }
}

/// The window that a name means.
fn window_of(what: Option<What>) -> Option<u32>
    ensures { result ≡ window_of what }
{
    match what {
        Some(What::Window(slot)) => Some(slot),
        _ => None,
    }
}

/// The window whose size a constant is.
pub(crate) fn size_slot(meanings: &Meanings, extent: Extent) -> Option<u32>
    ensures { result ≡ size_slot (what_at meanings.now) extent }
{
    match extent.bracket {
        Bracket::Size => window_of(meanings.at(extent.place)),
        Bracket::Burst => None,
    }
}

/// The window whose burst a constant is.
fn burst_slot(meanings: &Meanings, extent: Extent) -> Option<u32>
    ensures { result ≡ burst_slot (what_at meanings.now) extent }
{
    match extent.bracket {
        Bracket::Size => None,
        Bracket::Burst => window_of(meanings.at(extent.place)),
    }
}

/// Whether an amount isn't a number.
fn is_other(size: u32, burst: Amount) -> bool
    ensures { result ≡ is_other size burst }
{
    match burst {
        Amount::Number(number) => size != number,
        Amount::BelowZero => true,
    }
}

/// Whether a burst is another amount than a size that a window can have.
fn differs_from(size: u32, burst: Amount) -> bool
    ensures { result ≡ differs_from size burst }
{
    0 < size && size < HORIZON_LIMIT + 1 && is_other(size, burst)
}

/// Whether a burst is another amount than a size that a window can have, where the size is a constant.
fn differs(size: Option<Amount>, burst: Amount) -> bool
    ensures { result ≡ differs size burst }
{
    match size {
        Some(Amount::Number(size)) => differs_from(size, burst),
        Some(Amount::BelowZero) | None => false,
    }
}

/// Whether a constant is the burst of a window with another size.
fn is_wrong(sizes: &Sizes, meanings: &Meanings, extent: Extent) -> bool
    ensures { result ≡ is_wrong (sized sizes.now) (what_at meanings.now) extent }
{
    match burst_slot(meanings, extent) {
        Some(slot) => differs(sizes.of(slot), extent.amount),
        None => false,
    }
}

/// The sizes of windows that are constants.
fn all_sizes(alloc: Global, meanings: &Meanings, list: &[Extent]) -> Result<Sizes, Memory>
    ensures { IfOk result (λ sizes. AreSizes list.now (what_at meanings.now) sizes) }
{
    let mut sizes = Sizes::new(alloc);
    for extent in list {
        sizes.add_if(size_slot(meanings, *extent), extent.amount)?;
    }
    Ok(sizes)
}

/// The places of the windows whose bursts trap, by the constants of the program.
#[tactic(auto, using(crate::proofs::WrongBursts::wrong_bursts))]
fn marked(
    alloc: Global,
    sizes: &Sizes,
    meanings: &Meanings,
    list: &[Extent],
) -> Result<Places, Memory>
    requires { AreSizes list.now (what_at meanings.now) sizes.now }
    ensures { IfOk result (λ places. AreWrongBursts list.now (what_at meanings.now) places) }
{
    let mut places = Places::new(alloc);
    for index in 0..list.len() {
        places.add_if(is_wrong(sizes, meanings, list[index]), list[index].place)?;
    }
    Ok(places)
}

/// The places of the names of windows in output items whose burst is a constant, where the window's size is another one: such a task
/// traps where it is created. What the names of the program mean is handed in, at each place one.
pub fn wrong_bursts(alloc: Global, program: &Program, names: &[Resolved]) -> Result<Places, Memory>
    ensures { IfOk result (AreWrongBursts (extents (meaning_at names.now) (program_tree program.now)) (meaning_at names.now)) }
{
    let meanings = Meanings::of(alloc, names)?;
    let list = extents(alloc, &meanings, program)?;
    let sizes = all_sizes(alloc, &meanings, list.as_slice())?;
    marked(alloc, &sizes, &meanings, list.as_slice())
}
