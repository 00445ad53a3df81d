//! Parts as numbers.

ghost use Rattle.std.specs.Prelude.{◌≡◌, ◌++◌, ◌∷◌, ◌+◌, ◌<◌, ◌≤◌, ◌^◌, [], List, ℕ, length, OnOk, Some, slice_get};
ghost use Rattle.std.specs.List.{flat_map, AllByRecursion};
ghost use Rattle.os_code.specs.declared.site.Site.{Site as CodeSite};
ghost use Rattle.os_code.specs.declared.site.SiteItem.{SiteItem as CodeItem};
ghost use Rattle.os_object.specs.Fronts.{IsSmallItem, IsSmallSite};
ghost use Rattle.os_object.specs.Object as written;

use crate::bytes::write_numbers;
use crate::writing_instr::write_instr;
use os_code::{CodeUnit, Instr, Site, SiteItem};
use os_io::Memory;

/// Adds the list of units: its length, and its members.
pub(crate) fn write_units(object: &mut Vec<u8>, units: &[CodeUnit]) -> Result<(), Memory>
    requires { length units.now < 2 ^ 32 }
    ensures { OnOk result (object.new.items ≡ object.old.items ++ flat_map written.number (written.list_of written.unit_numbers units.now)) }
{
    write_numbers(object, &[units.len() as u32])?;
    for unit in units {
        write_numbers(object, &[unit.start, unit.args, unit.slots, unit.stack])?;
    }
    Ok(())
}

/// Adds the list of instrs: its length, and its members.
pub(crate) fn write_instrs(object: &mut Vec<u8>, instrs: &[Instr]) -> Result<(), Memory>
    requires { length instrs.now < 2 ^ 32 }
    ensures ok { OnOk result (object.new.items ≡ object.old.items ++ flat_map written.number (written.list_of written.instr_numbers instrs.now)) }
    ensures are_instrs { OnOk result (AllByRecursion written.IsInstr instrs.now) }
{
    write_numbers(object, &[instrs.len() as u32])?;
    for instr in instrs {
        write_instr(object, *instr)?;
    }
    Ok(())
}

/// Adds the list of slots: its length, and its members.
pub(crate) fn write_slots(object: &mut Vec<u8>, slots: &[u32]) -> Result<(), Memory>
    requires { length slots.now < 2 ^ 32 }
    ensures { OnOk result (object.new.items ≡ object.old.items ++ flat_map written.number (written.list_of written.slot_numbers slots.now)) }
{
    write_numbers(object, &[slots.len() as u32])?;
    for slot in slots {
        write_numbers(object, &[*slot])?;
    }
    Ok(())
}

/// Adds the list of items: its length, and its members.
pub(crate) fn write_items(object: &mut Vec<u8>, items: &[SiteItem]) -> Result<(), Memory>
    requires few { length items.now < 2 ^ 32 }
    requires small { (index : ℕ) (item : CodeItem) → slice_get items.now index ≡ Some item → IsSmallItem item }
    ensures { OnOk result (object.new.items ≡ object.old.items ++ flat_map written.number (written.list_of written.item_numbers items.now)) }
{
    write_numbers(object, &[items.len() as u32])?;
    for item in items {
        write_item(object, *item)?;
    }
    Ok(())
}

/// Adds an item: whether it is an output item, its stream, and its window.
fn write_item(object: &mut Vec<u8>, item: SiteItem) -> Result<(), Memory>
    requires { IsSmallItem item }
    ensures { OnOk result (object.new.items ≡ object.old.items ++ flat_map written.number (written.item_numbers item)) }
{
    let window = match item.window {
        None => 0,
        Some(slot) => slot + 1,
    };
    write_numbers(object, &[u32::from(item.write), item.stream, window])
}

/// Adds a site: its unit, its line, and its two lists.
fn write_site(object: &mut Vec<u8>, site: &Site) -> Result<(), Memory>
    requires { IsSmallSite site.now }
    ensures { OnOk result (object.new.items ≡ object.old.items ++ flat_map written.number (written.site_numbers site.now)) }
{
    write_numbers(object, &[site.unit, site.line])?;
    write_slots(object, site.captured.as_slice())?;
    write_items(object, site.items.as_slice())
}

/// Adds the list of sites: its length, and its members.
pub(crate) fn write_sites(object: &mut Vec<u8>, sites: &[Site]) -> Result<(), Memory>
    requires few { length sites.now < 2 ^ 32 }
    requires small { (number : ℕ) (site : CodeSite) → slice_get sites.now number ≡ Some site → IsSmallSite site }
    ensures { OnOk result (object.new.items ≡ object.old.items ++ flat_map written.number (written.list_of written.site_numbers sites.now)) }
{
    write_numbers(object, &[sites.len() as u32])?;
    for site in sites {
        write_site(object, site)?;
    }
    Ok(())
}
