//! A row of C for each instruction.

ghost use Rattle.std.specs.Prelude.{◌≡◌, ◌<◌, ◌≤◌, ◌-◌, ◌++◌, length, OnOk};
ghost use Rattle.os_code.specs.Codes.{parts_of};
ghost use Rattle.os_code.specs.Parts.{unit_at};
ghost use Rattle.oscc_text.specs.Rows.{args_of, binary_row, burst_in_row, burst_out_row, call_head, call_row, check_row, item_check_row};
ghost use Rattle.oscc_text.specs.Rows.{is_target, item_load_row, item_store_row, label_if, label_text, labelled, load_row, push_row};
ghost use Rattle.oscc_text.specs.Rows.{row, row_at, rows, spawn_row};
ghost use Rattle.oscc_text.specs.Rows.{store_row, tick_row, unary_row, window_row, zero_row};
ghost use Rattle.oscc_text.specs.Targets.{AreTargets};

use crate::lists::add_operands;
use crate::names::{binary_name, unary_name};
use crate::pieces::{add_named, add_one, add_three, add_two};
use os_code::{Binary, Code, Instr, Unary};
use os_io::Memory;
use osview_text::Text;

/// How many arguments a unit takes.
fn args_of(code: &Code, unit: u32) -> u32
    ensures { result ≡ args_of (unit_at (parts_of code.now) unit) }
{
    match code.units.as_slice().get(unit as usize) {
        Some(unit) => unit.args,
        None => 0,
    }
}

/// Adds the front of the row of a call.
fn add_call_head(told: &mut Text, unit: u32, args: u32) -> Result<(), Memory>
    ensures { OnOk result (told.new ≡ told.old ++ call_head unit args) }
{
    add_two(
        told,
        b"d -= ",
        u64::from(args),
        b"; s[d] = unit_",
        u64::from(unit),
        b"(",
    )
}

/// Adds the row of a call.
fn add_call(told: &mut Text, unit: u32, args: u32) -> Result<(), Memory>
    ensures { OnOk result (told.new ≡ told.old ++ call_row unit args) }
{
    add_call_head(told, unit, args)?;
    add_operands(told, args)?;
    told.add(b"); ++d;")
}

/// Adds the row that sets slots to 0.
fn add_zero(told: &mut Text, first: u32, count: u32) -> Result<(), Memory>
    ensures { OnOk result (told.new ≡ told.old ++ zero_row first count) }
{
    if count == 1 {
        add_one(told, b"v[", u64::from(first), b"] = 0;")
    } else {
        add_two(
            told,
            b"memset(v + ",
            u64::from(first),
            b", 0, ",
            u64::from(count),
            b" * sizeof *v);",
        )
    }
}

/// Adds the row that pushes a number.
fn add_push(told: &mut Text, number: i32) -> Result<(), Memory>
    ensures { OnOk result (told.new ≡ told.old ++ push_row number) }
{
    told.add(b"s[d++] = ")?;
    told.signed(number)?;
    told.add(b";")
}

/// Adds the row of an operator with one operand.
fn add_unary(told: &mut Text, op: Unary, line: u32) -> Result<(), Memory>
    ensures { OnOk result (told.new ≡ told.old ++ unary_row op line) }
{
    add_named(
        told,
        b"s[d - 1] = ",
        unary_name(op),
        b"(s[d - 1], ",
        u64::from(line),
        b");",
    )
}

/// Adds the row of an operator with two operands.
fn add_binary(told: &mut Text, op: Binary, line: u32) -> Result<(), Memory>
    ensures { OnOk result (told.new ≡ told.old ++ binary_row op line) }
{
    add_named(
        told,
        b"--d; s[d - 1] = ",
        binary_name(op),
        b"(s[d - 1], s[d], ",
        u64::from(line),
        b");",
    )
}

/// Adds the row that loads a slot by an index.
fn add_load(told: &mut Text, first: u32, size: u32, line: u32) -> Result<(), Memory>
    ensures { OnOk result (told.new ≡ told.old ++ load_row first size line) }
{
    add_three(
        told,
        b"s[d - 1] = v[",
        u64::from(first),
        b" + os_index(s[d - 1], ",
        u64::from(size),
        b", ",
        u64::from(line),
        b")];",
    )
}

/// Adds the row that stores in a slot by an index.
fn add_store(told: &mut Text, first: u32, size: u32, line: u32) -> Result<(), Memory>
    ensures { OnOk result (told.new ≡ told.old ++ store_row first size line) }
{
    add_three(
        told,
        b"d -= 2; v[",
        u64::from(first),
        b" + os_index(s[d], ",
        u64::from(size),
        b", ",
        u64::from(line),
        b")] = s[d + 1];",
    )
}

/// Adds the row that loads an element of a window.
fn add_item_load(told: &mut Text, item: u32, line: u32) -> Result<(), Memory>
    ensures { OnOk result (told.new ≡ told.old ++ item_load_row item line) }
{
    add_three(
        told,
        b"s[d - 1] = os_windows[",
        u64::from(item),
        b"].at[os_index(s[d - 1], os_windows[",
        u64::from(item),
        b"].size, ",
        u64::from(line),
        b")];",
    )
}

/// Adds the row that stores in an element of a window.
fn add_item_store(told: &mut Text, item: u32, line: u32) -> Result<(), Memory>
    ensures { OnOk result (told.new ≡ told.old ++ item_store_row item line) }
{
    add_three(
        told,
        b"d -= 2; os_windows[",
        u64::from(item),
        b"].at[os_index(s[d], os_windows[",
        u64::from(item),
        b"].size, ",
        u64::from(line),
        b")] = s[d + 1];",
    )
}

/// Adds the row that looks at an index.
fn add_check(told: &mut Text, size: u32, line: u32) -> Result<(), Memory>
    ensures { OnOk result (told.new ≡ told.old ++ check_row size line) }
{
    add_two(
        told,
        b"os_index(s[d - 1], ",
        u64::from(size),
        b", ",
        u64::from(line),
        b");",
    )
}

/// Adds the row that looks at an index into a window.
fn add_item_check(told: &mut Text, item: u32, line: u32) -> Result<(), Memory>
    ensures { OnOk result (told.new ≡ told.old ++ item_check_row item line) }
{
    add_two(
        told,
        b"os_index(s[d - 1], os_windows[",
        u64::from(item),
        b"].size, ",
        u64::from(line),
        b");",
    )
}

/// Adds the row that keeps the size of a window.
fn add_window(told: &mut Text, slot: u32, line: u32) -> Result<(), Memory>
    ensures { OnOk result (told.new ≡ told.old ++ window_row slot line) }
{
    add_two(
        told,
        b"--d; v[",
        u64::from(slot),
        b"] = os_size(s[d], ",
        u64::from(line),
        b");",
    )
}

/// Adds the row that looks at the burst of an input item.
fn add_burst_in(told: &mut Text, line: u32) -> Result<(), Memory>
    ensures { OnOk result (told.new ≡ told.old ++ burst_in_row line) }
{
    add_one(told, b"os_burst_in(s[d - 1], ", u64::from(line), b");")
}

/// Adds the row that looks at the burst of an output item.
fn add_burst_out(told: &mut Text, slot: u32, line: u32) -> Result<(), Memory>
    ensures { OnOk result (told.new ≡ told.old ++ burst_out_row slot line) }
{
    add_two(
        told,
        b"os_burst_out(s[d - 1], v[",
        u64::from(slot),
        b"], ",
        u64::from(line),
        b");",
    )
}

/// Adds the row that creates an activation.
fn add_spawn(told: &mut Text, site: u32) -> Result<(), Memory>
    ensures { OnOk result (told.new ≡ told.old ++ spawn_row site) }
{
    add_two(
        told,
        b"d -= 2 * os_sites[",
        u64::from(site),
        b"].items; os_spawn(",
        u64::from(site),
        b", s + d, v);",
    )
}

/// Adds the row of a tick.
fn add_tick(told: &mut Text, first: u32) -> Result<(), Memory>
    ensures { OnOk result (told.new ≡ told.old ++ tick_row first) }
{
    add_one(
        told,
        b"d -= 2; os_tick(",
        u64::from(first),
        b", s[d], s[d + 1]);",
    )
}

/// Adds the row of an instruction.
fn add_row(told: &mut Text, code: &Code, instr: Instr) -> Result<(), Memory>
    ensures { OnOk result (told.new ≡ told.old ++ row (parts_of code.now) instr) }
{
    match instr {
        Instr::Push(number) => add_push(told, number),
        Instr::Drop => told.add(b"--d;"),
        Instr::Copy => told.add(b"s[d] = s[d - 1]; ++d;"),
        Instr::Load(slot) => add_one(told, b"s[d++] = v[", u64::from(slot), b"];"),
        Instr::Store(slot) => add_one(told, b"v[", u64::from(slot), b"] = s[--d];"),
        Instr::Zero { first, count } => add_zero(told, first, count),
        Instr::CheckAt { size, line } => add_check(told, size, line),
        Instr::LoadAt { first, size, line } => add_load(told, first, size, line),
        Instr::StoreAt { first, size, line } => add_store(told, first, size, line),
        Instr::ItemCheck { item, line } => add_item_check(told, item, line),
        Instr::ItemLoad { item, line } => add_item_load(told, item, line),
        Instr::ItemStore { item, line } => add_item_store(told, item, line),
        Instr::Unary { op, line } => add_unary(told, op, line),
        Instr::Binary { op, line } => add_binary(told, op, line),
        Instr::Jump(to) => add_one(told, b"goto L", u64::from(to), b";"),
        Instr::JumpZero(to) => add_one(told, b"if (s[--d] == 0) goto L", u64::from(to), b";"),
        Instr::Turn => told.add(b"os_turn();"),
        Instr::Call(unit) => add_call(told, unit, args_of(code, unit)),
        Instr::Return => told.add(b"return s[d - 1];"),
        Instr::End => told.add(b"return 0;"),
        Instr::Window { slot, line } => add_window(told, slot, line),
        Instr::BurstIn { line } => add_burst_in(told, line),
        Instr::BurstOut { slot, line } => add_burst_out(told, slot, line),
        Instr::Spawn(site) => add_spawn(told, site),
        Instr::Tick(first) => add_tick(told, first),
    }
}

/// Adds a label.
fn add_label_text(told: &mut Text, place: usize) -> Result<(), Memory>
    ensures { OnOk result (told.new ≡ told.old ++ label_text place) }
{
    add_one(told, b"L", place as u64, b": ")
}

/// Adds the label of a place, where jumps go to it.
fn add_label(told: &mut Text, target: bool, place: usize) -> Result<(), Memory>
    ensures { OnOk result (told.new ≡ told.old ++ label_if target place) }
{
    if target {
        add_label_text(told, place)
    } else {
        told.add(b"    ")
    }
}

/// Whether jumps go to a place.
fn is_target(code: &Code, targets: &[bool], place: usize) -> bool
    requires marked { AreTargets (parts_of code.now) targets.now }
    requires inside { place < length code.now.instrs }
    ensures { result ≡ is_target (parts_of code.now) place }
{
    targets[place]
}

/// Adds the row of an instruction behind its label.
fn add_labelled(
    told: &mut Text,
    code: &Code,
    target: bool,
    place: usize,
    instr: Instr,
) -> Result<(), Memory>
    requires { target ≡ is_target (parts_of code.now) place }
    ensures { OnOk result (told.new ≡ told.old ++ labelled (parts_of code.now) place instr) }
{
    add_label(told, target, place)?;
    add_row(told, code, instr)?;
    told.add(b"\n")
}

/// Adds the row of a place.
fn add_row_at(told: &mut Text, code: &Code, targets: &[bool], place: usize) -> Result<(), Memory>
    requires { AreTargets (parts_of code.now) targets.now }
    ensures { OnOk result (told.new ≡ told.old ++ row_at (parts_of code.now) place) }
{
    match code.instrs.as_slice().get(place) {
        Some(instr) => {
            let target = is_target(code, targets, place);
            add_labelled(told, code, target, place, *instr)
        }
        None => Ok(()),
    }
}

/// Adds the rows of the places from one to another.
pub(crate) fn add_rows(
    told: &mut Text,
    code: &Code,
    targets: &[bool],
    first: usize,
    end: usize,
) -> Result<(), Memory>
    requires marked { AreTargets (parts_of code.now) targets.now }
    requires order { first ≤ end }
    ensures { OnOk result (told.new ≡ told.old ++ rows (parts_of code.now) first (end - first)) }
{
    for place in first..end {
        add_row_at(told, code, targets, place)?;
    }
    Ok(())
}
