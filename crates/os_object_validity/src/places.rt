//! What each unit and each instruction asks of where it stands, but for the operand stack.

ghost use Rattle.std.specs.Prelude.{◌≡◌, ◌<◌, true, false, length, Some};
ghost use Rattle.os_code.specs.Checking as checking;
ghost use Rattle.os_code.specs.IsValid.{HasRegions};
ghost use Rattle.os_code.specs.Parts.{instr_at, unit_at, kind_at, region_end};
ghost use Rattle.os_object_validity.specs.Tables.{AreEnds, AreTasks, AllStand, UnitStands};
ghost use Rattle.os_object_validity.specs.Tables as tested;

use crate::effects::{
    called_of, item_of, jump_of, needs_turn, slots_named, spawned_of, stored_of, ticked_of,
};
use crate::kinds::{UnitKind, items_of, kind_of, stands_in};
use os_code::{CodeUnit, Instr, Parts, SiteItem};

/// A unit, with its number and the end of its region.
#[derive(Clone, Copy, Debug, PartialEq, Eq)]
pub(crate) struct Region {
    pub number: usize,
    pub unit: CodeUnit,
    pub end: usize,
}

/// Whether all units and their instructions keep the rules of their places.
pub(crate) fn places_stand(parts: &Parts, ends: &[usize], tasks: &[Option<usize>]) -> bool
    requires regions { HasRegions parts.now }
    requires ends { AreEnds parts.now ends.now }
    requires told { AreTasks parts.now tasks.now }
    ensures yes { result ≡ true → AllStand parts.now }
    ensures no { result ≡ false → AllStand parts.now → ⊥ }
{
    for (number, unit) in parts.units.as_slice().iter().enumerate() {
        let region = Region {
            number,
            unit: *unit,
            end: ends[number],
        };
        if !unit_stands(parts, tasks, region) {
            return false;
        }
    }
    true
}

/// Whether a unit's arguments and stack are small enough, and each of its instructions may stand at its place.
fn unit_stands(parts: &Parts, tasks: &[Option<usize>], region: Region) -> bool
    requires regions { HasRegions parts.now }
    requires told { AreTasks parts.now tasks.now }
    requires is_unit { unit_at parts.now region.number ≡ Some region.unit }
    requires ends { region.end ≡ region_end parts.now region.unit }
    ensures yes { result ≡ true → UnitStands parts.now region.number region.unit }
    ensures no { result ≡ false → UnitStands parts.now region.number region.unit → ⊥ }
{
    let start = region.unit.start as usize;
    if region.unit.args > region.unit.slots || region.unit.stack as usize > region.end - start {
        return false;
    }
    for place in start..region.end {
        if !place_stands(parts, tasks, region, place, parts.instrs.as_slice()[place]) {
            return false;
        }
    }
    true
}

/// Whether an instruction may stand at its place, as the tests below say one by one.
fn place_stands(
    parts: &Parts,
    tasks: &[Option<usize>],
    region: Region,
    place: usize,
    instr: Instr,
) -> bool
    requires told { AreTasks parts.now tasks.now }
    requires there { region.number < length parts.now.units }
    requires ends { region.end ≡ region_end parts.now region.unit }
    ensures { result ≡ tested.place_stands parts.now region.number region.unit place instr }
{
    turn_stands(parts, place, instr)
        && jump_stands(parts, region, place, instr)
        && call_stands(parts, tasks, region.number, instr)
        && names_stand(parts, region.unit, instr)
        && kind_stands(parts, tasks, region.number, instr)
}

/// Whether a `Turn` stands at a place.
fn is_turn(parts: &Parts, place: usize) -> bool
    ensures { result ≡ checking.is_turn (instr_at parts.now place) }
{
    match parts.instrs.as_slice().get(place) {
        Some(Instr::Turn) => true,
        _ => false,
    }
}

/// Whether no instruction stands at a place that asks for a `Turn` before it.
fn may_be_target(parts: &Parts, place: usize) -> bool
    ensures { result ≡ tested.may_be_target (instr_at parts.now place) }
{
    match parts.instrs.as_slice().get(place) {
        Some(instr) => !needs_turn(*instr),
        None => true,
    }
}

/// Whether a `Call` or a `Tick` stands directly after a `Turn`.
fn turn_stands(parts: &Parts, place: usize, instr: Instr) -> bool
    ensures { result ≡ tested.turn_stands parts.now place instr }
{
    !needs_turn(instr) || is_turn(parts, place.saturating_sub(1))
}

/// Whether a jump stays in its region, goes back to a `Turn` alone, and to nothing that asks for a `Turn` before it.
fn jump_stands(parts: &Parts, region: Region, place: usize, instr: Instr) -> bool
    requires ends { region.end ≡ region_end parts.now region.unit }
    ensures { result ≡ tested.jump_stands parts.now region.unit place instr }
{
    match jump_of(instr) {
        Some(to) => target_stands(parts, region, place, to as usize),
        None => true,
    }
}

/// Whether a jump from a place may go to another one.
fn target_stands(parts: &Parts, region: Region, place: usize, to: usize) -> bool
    requires ends { region.end ≡ region_end parts.now region.unit }
    ensures { result ≡ tested.target_stands parts.now region.unit place to }
{
    region.unit.start as usize <= to
        && to < region.end
        && (to > place || is_turn(parts, to))
        && may_be_target(parts, to)
}

/// Whether a call is of a function of smaller number.
fn call_stands(parts: &Parts, tasks: &[Option<usize>], number: usize, instr: Instr) -> bool
    requires told { AreTasks parts.now tasks.now }
    requires there { number < length parts.now.units }
    ensures { result ≡ tested.call_stands parts.now number instr }
{
    match called_of(instr) {
        Some(callee) => (callee as usize) < number && is_function(parts, tasks, callee as usize),
        None => true,
    }
}

/// Whether a unit is a function.
fn is_function(parts: &Parts, tasks: &[Option<usize>], number: usize) -> bool
    requires told { AreTasks parts.now tasks.now }
    requires there { number < length parts.now.units }
    ensures { result ≡ checking.is_function (kind_at parts.now number) }
{
    match kind_of(parts, tasks, number) {
        UnitKind::Function => true,
        UnitKind::Main | UnitKind::Task => false,
    }
}

/// Whether the slots, the site and the stream that an instruction names are there.
fn names_stand(parts: &Parts, unit: CodeUnit, instr: Instr) -> bool
    ensures { result ≡ tested.names_stand parts.now unit instr }
{
    slots_named(instr) <= u64::from(unit.slots)
        && site_there(parts, instr)
        && stream_there(parts, instr)
}

/// Whether the site is there that an instruction names.
fn site_there(parts: &Parts, instr: Instr) -> bool
    ensures { result ≡ tested.site_there parts.now instr }
{
    match spawned_of(instr) {
        Some(site) => (site as usize) < parts.sites.len(),
        None => true,
    }
}

/// Whether the stream is there from which an instruction counts.
fn stream_there(parts: &Parts, instr: Instr) -> bool
    ensures { result ≡ tested.stream_there parts.now instr }
{
    match ticked_of(instr) {
        Some(stream) => stream < parts.streams,
        None => true,
    }
}

/// Whether an instruction stands in its kind of unit, and the item that it names is there.
fn kind_stands(parts: &Parts, tasks: &[Option<usize>], number: usize, instr: Instr) -> bool
    requires told { AreTasks parts.now tasks.now }
    requires there { number < length parts.now.units }
    ensures { result ≡ tested.kind_stands (kind_at parts.now number) instr }
{
    let kind = kind_of(parts, tasks, number);
    stands_in(kind, instr)
        && (kind != UnitKind::Task || items_fit(items_of(parts, tasks, number), instr))
}

/// Whether the item that an instruction names is there, and is an output item where it stores into it.
fn items_fit(items: &[SiteItem], instr: Instr) -> bool
    ensures { result ≡ tested.items_fit_in items.now instr }
{
    item_there(items, instr) && stores_into_output(items, instr)
}

/// Whether the item that an instruction names is there.
fn item_there(items: &[SiteItem], instr: Instr) -> bool
    ensures { result ≡ tested.item_there items.now instr }
{
    match item_of(instr) {
        Some(item) => (item as usize) < items.len(),
        None => true,
    }
}

/// Whether an item that an instruction stores into is an output item.
fn stores_into_output(items: &[SiteItem], instr: Instr) -> bool
    ensures { result ≡ tested.stores_into_output items.now instr }
{
    match stored_of(instr) {
        Some(item) => is_output(items, item as usize),
        None => true,
    }
}

/// Whether an item is an output item, where it is there.
fn is_output(items: &[SiteItem], item: usize) -> bool
    ensures { result ≡ tested.is_output items.now item }
{
    match items.get(item) {
        Some(item) => item.write,
        None => true,
    }
}
