//! `main`, sites, streams, and the slots of all units.

ghost use Rattle.std.specs.Prelude.{◌≡◌, nat_lt, sum_by, nat_le};
ghost use Rattle.std.specs.List.{list_all};
ghost use Rattle.os_ast.specs.Limits.{slots_limit};
ghost use Rattle.os_code.specs.declared.unit.CodeUnit.{CodeUnit};
ghost use Rattle.os_object_validity.specs.Tables as tested;

use os_ast::{ALL_STREAMS_LIMIT, CAPTURED_LIMIT, ITEMS_LIMIT, SLOTS_LIMIT};
use os_code::{CodeUnit, Parts, Site, SiteItem};

/// Whether `main` is there and takes the input's length, streams and slots are within their limits, and what each site names is there.
pub(crate) fn sites_stand(parts: &Parts) -> bool
    ensures { result ≡ tested.sites_stand parts.now }
{
    if parts.streams < 2
        || parts.streams > ALL_STREAMS_LIMIT
        || !slots_few(parts.units.as_slice())
    {
        return false;
    }
    match parts.units.as_slice().get(parts.main as usize) {
        Some(main) => main.args == 1 && all_stand(parts, main),
        None => false,
    }
}

/// Whether the slots of all units are within their limit.
fn slots_few(units: &[CodeUnit]) -> bool
    ensures { result ≡ nat_le (sum_by (λ (unit : CodeUnit). unit.slots) units.now) slots_limit }
{
    let mut left = SLOTS_LIMIT;
    for unit in units {
        if unit.slots > left {
            return false;
        }
        left -= unit.slots;
    }
    true
}

/// Whether what each site names is there.
fn all_stand(parts: &Parts, main: &CodeUnit) -> bool
    ensures { result ≡ list_all (tested.site_stands parts.now main.now) parts.now.sites }
{
    for site in parts.sites.as_slice() {
        if !site_stands(parts, main, site) {
            return false;
        }
    }
    true
}

/// Whether what a site names is there.
fn site_stands(parts: &Parts, main: &CodeUnit, site: &Site) -> bool
    ensures { result ≡ tested.site_stands parts.now main.now site.now }
{
    site.unit != parts.main
        && (site.unit as usize) < parts.units.len()
        && args_are(parts, site)
        && site.items.len() <= ITEMS_LIMIT
        && site.captured.len() <= CAPTURED_LIMIT
        && slots_there(main, site.captured.as_slice())
        && items_stand(parts, main, site.items.as_slice())
}

/// Whether the arguments of a site's unit are the captured scalars.
fn args_are(parts: &Parts, site: &Site) -> bool
    ensures { result ≡ tested.args_of_are parts.now site.now }
{
    match parts.units.as_slice().get(site.unit as usize) {
        Some(unit) => unit.args as usize == site.captured.len(),
        None => true,
    }
}

/// Whether the slots are slots of `main`.
fn slots_there(main: &CodeUnit, slots: &[u32]) -> bool
    ensures { result ≡ list_all (λ slot. nat_lt slot main.now.slots) slots.now }
{
    slots.iter().all(|slot| *slot < main.slots)
}

/// Whether the windows of items are kept in slots of `main`, and their streams are there.
fn items_stand(parts: &Parts, main: &CodeUnit, items: &[SiteItem]) -> bool
    ensures { result ≡ list_all (tested.item_stands parts.now main.now) items.now }
{
    items.iter().all(|item| item_stands(parts, main, item))
}

/// Whether the window of an item is kept in a slot of `main`, and its stream is there.
fn item_stands(parts: &Parts, main: &CodeUnit, item: &SiteItem) -> bool
    ensures { result ≡ tested.item_stands parts.now main.now item.now }
{
    if item.stream >= parts.streams {
        return false;
    }
    match item.window {
        Some(slot) => slot < main.slots,
        None => true,
    }
}
