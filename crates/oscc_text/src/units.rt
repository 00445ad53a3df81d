//! A function for each unit.

ghost use Rattle.std.specs.Prelude.{◌≡◌, ◌<◌, ◌++◌, length, OnOk};
ghost use Rattle.os_code.specs.Codes.{parts_of};
ghost use Rattle.os_code.specs.NeedTables.{IsMarked};
ghost use Rattle.oscc_text.specs.Targets.{AreTargets};
ghost use Rattle.oscc_text.specs.Units.{operand_stack, signature, signature_head, slots, stack_slots, static_slots, unit_head};
ghost use Rattle.oscc_text.specs.Units.{unit_text, unit_text_at, units_text};

use crate::lists::{add_parameters, add_stored_arguments};
use crate::pieces::add_one;
use crate::regions::{mark_starts, region_end};
use crate::rows::add_rows;
use crate::targets::mark_targets;
use os_code::{Code, CodeUnit};
use os_io::Memory;
use osview_text::Text;
use std::alloc::Global;

/// How many slots a unit has at most that are kept on the stack of the C program. The calls of a program of 262,144 bytes are
/// some thousands deep at most, so that all such slots take a few megabytes of it.
const MOST_ON_STACK: u32 = 64;

/// Adds few slots, all of them 0.
fn add_stack_slots(told: &mut Text, count: u32) -> Result<(), Memory>
    ensures { OnOk result (told.new ≡ told.old ++ stack_slots count) }
{
    add_one(told, b"    int32_t v[1 + ", u64::from(count), b"] = {0};\n")
}

/// Adds many slots, all of them 0.
fn add_static_slots(told: &mut Text, count: u32) -> Result<(), Memory>
    ensures { OnOk result (told.new ≡ told.old ++ static_slots count) }
{
    add_one(
        told,
        b"    static int32_t v[1 + ",
        u64::from(count),
        b"];\n    memset(v, 0, sizeof v);\n",
    )
}

/// Adds the slots of a unit.
fn add_slots(told: &mut Text, count: u32) -> Result<(), Memory>
    ensures { OnOk result (told.new ≡ told.old ++ slots count) }
{
    if count <= MOST_ON_STACK {
        add_stack_slots(told, count)
    } else {
        add_static_slots(told, count)
    }
}

/// Adds what a unit is called.
fn add_signature_head(told: &mut Text, number: usize) -> Result<(), Memory>
    ensures { OnOk result (told.new ≡ told.old ++ signature_head number) }
{
    add_one(told, b"static int32_t unit_", number as u64, b"(")
}

/// Adds what a unit is called and what it takes.
fn add_signature(told: &mut Text, number: usize, args: u32) -> Result<(), Memory>
    ensures { OnOk result (told.new ≡ told.old ++ signature number args) }
{
    add_signature_head(told, number)?;
    add_parameters(told, args)?;
    told.add(b")\n{\n")
}

/// Adds the operand stack of a unit.
fn add_operand_stack(told: &mut Text, most: u32) -> Result<(), Memory>
    ensures { OnOk result (told.new ≡ told.old ++ operand_stack most) }
{
    add_one(
        told,
        b"    int32_t s[1 + ",
        u64::from(most),
        b"];\n    size_t d = 0;\n",
    )
}

/// Adds the front of the function of a unit, up to its first row.
fn add_head(told: &mut Text, number: usize, unit: CodeUnit) -> Result<(), Memory>
    ensures { OnOk result (told.new ≡ told.old ++ unit_head number unit) }
{
    add_signature(told, number, unit.args)?;
    add_slots(told, unit.slots)?;
    add_operand_stack(told, unit.stack)?;
    add_stored_arguments(told, unit.args)
}

/// The places of a code that are marked: those at which units start, and those that jumps go to.
#[derive(Clone, Copy)]
struct Marks<'a> {
    starts: &'a [bool],
    targets: &'a [bool],
}

/// Adds the function of a unit.
fn add_unit(
    told: &mut Text,
    code: &Code,
    marks: Marks<'_>,
    number: usize,
    unit: CodeUnit,
) -> Result<(), Memory>
    requires starts { IsMarked (parts_of code.now) marks.starts.now }
    requires targets { AreTargets (parts_of code.now) marks.targets.now }
    requires inside { unit.start < length code.now.instrs }
    ensures { OnOk result (told.new ≡ told.old ++ unit_text (parts_of code.now) number unit) }
{
    add_head(told, number, unit)?;
    let end = region_end(code, marks.starts, unit.start);
    add_rows(told, code, marks.targets, unit.start as usize, end)?;
    told.add(b"}\n\n")
}

/// Adds the function of the unit with a number.
fn add_unit_at(told: &mut Text, code: &Code, marks: Marks<'_>, number: usize) -> Result<(), Memory>
    requires starts { IsMarked (parts_of code.now) marks.starts.now }
    requires targets { AreTargets (parts_of code.now) marks.targets.now }
    ensures { OnOk result (told.new ≡ told.old ++ unit_text_at (parts_of code.now) number) }
{
    match code.units.as_slice().get(number) {
        Some(unit) => add_unit(told, code, marks, number, *unit),
        None => Ok(()),
    }
}

/// Adds the functions of all units.
pub(crate) fn add_units(alloc: Global, told: &mut Text, code: &Code) -> Result<(), Memory>
    ensures { OnOk result (told.new ≡ told.old ++ units_text (parts_of code.now)) }
{
    let starts = mark_starts(alloc, code)?;
    let targets = mark_targets(alloc, code)?;
    let marks = Marks {
        starts: &starts,
        targets: &targets,
    };
    for number in 0..code.units.len() {
        add_unit_at(told, code, marks, number)?;
    }
    Ok(())
}
