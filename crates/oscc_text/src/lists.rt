//! Lists of arguments, by their number.

ghost use Rattle.std.specs.Prelude.{◌≡◌, ◌++◌, OnOk};
ghost use Rattle.std.specs.Fmt.{decimal};
ghost use Rattle.oscc_text.specs.Rows.{comma, operand, operands};
ghost use Rattle.oscc_text.specs.Sites.{scalar, scalars};
ghost use Rattle.oscc_text.specs.Units.{parameter, parameters, stored_argument, stored_arguments};

use crate::pieces::{add_one, add_two};
use os_io::Memory;
use osview_text::Text;

/// What stands before a member of a list.
fn comma(number: u64) -> &'static [u8]
    ensures { result.now ≡ comma number }
{
    if number == 0 { b"" } else { b", " }
}

/// Adds a number between bytes, behind what stands before it.
fn add_after(
    told: &mut Text,
    comma: &[u8],
    before: &[u8],
    number: u64,
    behind: &[u8],
) -> Result<(), Memory>
    ensures { OnOk result (told.new ≡ told.old ++ (comma.now ++ before.now ++ decimal number ++ behind.now)) }
{
    told.add(comma)?;
    add_one(told, before, number, behind)
}

/// Adds an argument of a call.
fn add_operand(told: &mut Text, number: u32) -> Result<(), Memory>
    ensures { OnOk result (told.new ≡ told.old ++ operand number) }
{
    add_after(
        told,
        comma(u64::from(number)),
        b"s[d + ",
        u64::from(number),
        b"]",
    )
}

/// Adds the arguments of a call, which are the topmost operands.
pub(crate) fn add_operands(told: &mut Text, count: u32) -> Result<(), Memory>
    ensures { OnOk result (told.new ≡ told.old ++ operands count) }
{
    for number in 0..count {
        add_operand(told, number)?;
    }
    Ok(())
}

/// Adds an argument of the call of a body.
fn add_scalar(told: &mut Text, number: usize) -> Result<(), Memory>
    ensures { OnOk result (told.new ≡ told.old ++ scalar number) }
{
    add_after(told, comma(number as u64), b"c[", number as u64, b"]")
}

/// Adds the arguments of the call of a body, which are the captured scalars.
pub(crate) fn add_scalars(told: &mut Text, count: usize) -> Result<(), Memory>
    ensures { OnOk result (told.new ≡ told.old ++ scalars count) }
{
    for number in 0..count {
        add_scalar(told, number)?;
    }
    Ok(())
}

/// Adds a parameter of a unit.
fn add_parameter(told: &mut Text, number: u32) -> Result<(), Memory>
    ensures { OnOk result (told.new ≡ told.old ++ parameter number) }
{
    told.add(comma(u64::from(number)))?;
    told.field(b"int32_t a", u64::from(number))
}

/// Adds the parameters of a unit.
pub(crate) fn add_parameters(told: &mut Text, count: u32) -> Result<(), Memory>
    ensures { OnOk result (told.new ≡ told.old ++ parameters count) }
{
    if count == 0 {
        return told.add(b"void");
    }
    for number in 0..count {
        add_parameter(told, number)?;
    }
    Ok(())
}

/// Adds the store of an argument in its slot.
fn add_stored(told: &mut Text, number: u32) -> Result<(), Memory>
    ensures { OnOk result (told.new ≡ told.old ++ stored_argument number) }
{
    add_two(
        told,
        b"    v[",
        u64::from(number),
        b"] = a",
        u64::from(number),
        b";\n",
    )
}

/// Adds the stores of the arguments in their slots.
pub(crate) fn add_stored_arguments(told: &mut Text, count: u32) -> Result<(), Memory>
    ensures { OnOk result (told.new ≡ told.old ++ stored_arguments count) }
{
    for number in 0..count {
        add_stored(told, number)?;
    }
    Ok(())
}
