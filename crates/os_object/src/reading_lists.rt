//! Lists at the front of numbers.

ghost use Rattle.std.specs.Prelude.{◌≡◌, ◌++◌, ◌∷◌, ◌≤◌, ◌<◌, ◌/◌, List, ℕ, length, IfOk, IfErr, IfSome, IfNone};
ghost use Rattle.std.specs.List.{flat_map, AllByRecursion};
ghost use Rattle.os_code.specs.declared.instr.Instr.{Instr as CodeInstr};
ghost use Rattle.os_code.specs.declared.site.Site.{Site as CodeSite};
ghost use Rattle.os_code.specs.declared.site.SiteItem.{SiteItem as CodeItem};
ghost use Rattle.os_code.specs.declared.unit.CodeUnit.{CodeUnit};
ghost use Rattle.os_code.specs.declared.parts.Parts.{Parts as CodeParts};
ghost use Rattle.os_object.specs.Fronts.{IsObjectRefused};
ghost use Rattle.os_object.specs.Object.{list_of, slot_numbers, window_number, write_number, item_numbers, site_numbers, unit_numbers, instr_numbers};
ghost use Rattle.os_object.specs.Object.{parts_numbers, IsInstr};

use crate::object_error::ObjectError;
use crate::reading_instr::read_instr;
use crate::reading_members::{read_item, read_slot, read_unit};
use os_code::{CodeUnit, Instr, Site, SiteItem};
use os_io::List;
use std::alloc::Global;

/// How many numbers a member of each list has at least: all of a unit, those of a site that captures nothing and has no
/// item, all of an item.
const UNIT_NUMBERS: usize = 4;

const SITE_NUMBERS: usize = 4;

const ITEM_NUMBERS: usize = 3;

/// The length of a list at the front, and the numbers behind it. A length that they are too few for, where each member has
/// `least` of them, is refused before any memory is taken for it.
fn read_length(numbers: &[u32], least: usize) -> Option<(usize, &[u32])>
    requires some { 0 < least }
    ensures some { IfSome result (λ read. numbers.now ≡ read.0 ∷ read.1.now) }
    ensures none { IfNone result ((count : ℕ) (rest : List ℕ) → count ≤ length rest / least → numbers.now ≡ count ∷ rest → ⊥) }
{
    let [count, rest @ ..] = numbers else {
        return None;
    };
    let count = *count as usize;
    if count > rest.len() / least {
        return None;
    }
    Some((count, rest))
}

/// The units at the front, and the numbers behind them.
pub(crate) fn read_units(
    alloc: Global,
    numbers: &[u32],
) -> Result<(List<CodeUnit>, &[u32]), ObjectError>
    ensures ok { IfOk result (λ read. numbers.now ≡ list_of unit_numbers read.0 ++ read.1.now) }
    ensures err { IfErr result (λ error. IsObjectRefused error
        ((units : List CodeUnit) (rest : List ℕ) → numbers.now ≡ list_of unit_numbers units ++ rest → ⊥)) }
{
    let Some((count, members)) = read_length(numbers, UNIT_NUMBERS) else {
        return Err(ObjectError::Format);
    };
    let mut units = List::with_capacity(alloc, count)?;
    let mut rest = members;
    for _ in 0..count {
        let Some((unit, after)) = read_unit(rest) else {
            return Err(ObjectError::Format);
        };
        units.push(unit)?;
        rest = after;
    }
    Ok((units, rest))
}

/// The slots at the front, and the numbers behind them.
pub(crate) fn read_slots(alloc: Global, numbers: &[u32]) -> Result<(List<u32>, &[u32]), ObjectError>
    ensures ok { IfOk result (λ read. numbers.now ≡ list_of slot_numbers read.0 ++ read.1.now) }
    ensures err { IfErr result (λ error. IsObjectRefused error ((slots : List ℕ) (rest : List ℕ) → numbers.now ≡ list_of slot_numbers slots ++ rest → ⊥)) }
{
    let Some((count, members)) = read_length(numbers, 1) else {
        return Err(ObjectError::Format);
    };
    let mut slots = List::with_capacity(alloc, count)?;
    let mut rest = members;
    for _ in 0..count {
        let Some((slot, after)) = read_slot(rest) else {
            return Err(ObjectError::Format);
        };
        slots.push(slot)?;
        rest = after;
    }
    Ok((slots, rest))
}

/// The items at the front, and the numbers behind them.
pub(crate) fn read_items(
    alloc: Global,
    numbers: &[u32],
) -> Result<(List<SiteItem>, &[u32]), ObjectError>
    ensures ok { IfOk result (λ read. numbers.now ≡ list_of item_numbers read.0 ++ read.1.now) }
    ensures err { IfErr result (λ error. IsObjectRefused error
        ((items : List CodeItem) (rest : List ℕ) → numbers.now ≡ list_of item_numbers items ++ rest → ⊥)) }
{
    let Some((count, members)) = read_length(numbers, ITEM_NUMBERS) else {
        return Err(ObjectError::Format);
    };
    let mut items = List::with_capacity(alloc, count)?;
    let mut rest = members;
    for _ in 0..count {
        let Some((item, after)) = read_item(rest) else {
            return Err(ObjectError::Format);
        };
        items.push(item)?;
        rest = after;
    }
    Ok((items, rest))
}

/// The site at the front, and the numbers behind it.
fn read_site(alloc: Global, numbers: &[u32]) -> Result<(Site, &[u32]), ObjectError>
    ensures ok { IfOk result (λ read. numbers.now ≡ site_numbers read.0 ++ read.1.now) }
    ensures err { IfErr result (λ error. IsObjectRefused error ((site : CodeSite) (rest : List ℕ) → numbers.now ≡ site_numbers site ++ rest → ⊥)) }
{
    let [unit, line, rest @ ..] = numbers else {
        return Err(ObjectError::Format);
    };
    let (captured, rest) = read_slots(alloc, rest)?;
    let (items, rest) = read_items(alloc, rest)?;
    let site = Site {
        unit: *unit,
        line: *line,
        captured,
        items,
    };
    Ok((site, rest))
}

/// The sites at the front, and the numbers behind them.
pub(crate) fn read_sites(
    alloc: Global,
    numbers: &[u32],
) -> Result<(List<Site>, &[u32]), ObjectError>
    ensures ok { IfOk result (λ read. numbers.now ≡ list_of site_numbers read.0 ++ read.1.now) }
    ensures err { IfErr result (λ error. IsObjectRefused error
        ((sites : List CodeSite) (rest : List ℕ) → numbers.now ≡ list_of site_numbers sites ++ rest → ⊥)) }
{
    let Some((count, members)) = read_length(numbers, SITE_NUMBERS) else {
        return Err(ObjectError::Format);
    };
    let mut sites = List::with_capacity(alloc, count)?;
    let mut rest = members;
    for _ in 0..count {
        let (site, after) = read_site(alloc, rest)?;
        sites.push(site)?;
        rest = after;
    }
    Ok((sites, rest))
}

/// The instrs at the front, and the numbers behind them.
pub(crate) fn read_instrs(
    alloc: Global,
    numbers: &[u32],
) -> Result<(List<Instr>, &[u32]), ObjectError>
    ensures ok { IfOk result (λ read. AllByRecursion IsInstr read.0 × (numbers.now ≡ list_of instr_numbers read.0 ++ read.1.now)) }
    ensures err { IfErr result (λ error. IsObjectRefused error
        ((instrs : List CodeInstr) (rest : List ℕ) → numbers.now ≡ list_of instr_numbers instrs ++ rest → ⊥)) }
{
    let Some((count, members)) = read_length(numbers, 1) else {
        return Err(ObjectError::Format);
    };
    let mut instrs = List::with_capacity(alloc, count)?;
    let mut rest = members;
    for _ in 0..count {
        let Some((instr, after)) = read_instr(rest) else {
            return Err(ObjectError::Format);
        };
        instrs.push(instr)?;
        rest = after;
    }
    Ok((instrs, rest))
}
