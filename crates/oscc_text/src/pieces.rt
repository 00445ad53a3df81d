//! Numbers and names between bytes.

ghost use Rattle.std.specs.Prelude.{◌≡◌, ◌++◌, OnOk};
ghost use Rattle.std.specs.Fmt.{decimal};

use os_io::Memory;
use osview_text::Text;

/// Adds a number between bytes.
pub(crate) fn add_one(
    told: &mut Text,
    before: &[u8],
    number: u64,
    behind: &[u8],
) -> Result<(), Memory>
    ensures { OnOk result (told.new ≡ told.old ++ (before.now ++ decimal number ++ behind.now)) }
{
    told.field(before, number)?;
    told.add(behind)
}

/// Adds two numbers between bytes.
pub(crate) fn add_two(
    told: &mut Text,
    before: &[u8],
    first: u64,
    between: &[u8],
    second: u64,
    behind: &[u8],
) -> Result<(), Memory>
    ensures { OnOk result (told.new
        ≡ told.old ++ (before.now ++ decimal first ++ between.now ++ decimal second ++ behind.now)) }
{
    told.field(before, first)?;
    add_one(told, between, second, behind)
}

/// Adds three numbers between bytes.
pub(crate) fn add_three(
    told: &mut Text,
    before: &[u8],
    first: u64,
    between: &[u8],
    second: u64,
    next: &[u8],
    third: u64,
    behind: &[u8],
) -> Result<(), Memory>
    ensures { OnOk result (told.new ≡ told.old
        ++ (before.now ++ decimal first ++ between.now ++ decimal second ++ next.now ++ decimal third ++ behind.now)) }
{
    told.field(before, first)?;
    add_two(told, between, second, next, third, behind)
}

/// Adds a name between bytes, and a number behind it.
pub(crate) fn add_named(
    told: &mut Text,
    before: &[u8],
    name: &[u8],
    between: &[u8],
    number: u64,
    behind: &[u8],
) -> Result<(), Memory>
    ensures { OnOk result (told.new
        ≡ told.old ++ (before.now ++ name.now ++ between.now ++ decimal number ++ behind.now)) }
{
    told.add(before)?;
    told.add(name)?;
    add_one(told, between, number, behind)
}
