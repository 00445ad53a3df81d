ghost use Rattle.std.specs.Prelude.{◌≡◌, ◌^◌, ◌<◌, ◌≤◌, ◌*◌, ◌++◌, OnOk};
ghost use Rattle.flow_core_laws.specs.Limits.{activations_limit};
ghost use Rattle.std.specs.Fmt.{decimal};
ghost use Rattle.osview_steps.specs.Lines.{hundredths, tenths};
ghost use Rattle.osview_steps.specs.Tallies.{mean, ratio, share};

use itoa::Buffer;
use os_io::Memory;
use osview_text::Text;

/// Adds a number in decimals, which may be wider than 64 bits.
pub(crate) fn add_number(told: &mut Text, number: u128) -> Result<(), Memory>
    ensures { OnOk result (told.new ≡ told.old ++ decimal number) }
{
    told.add(Buffer::new().format(number).as_bytes())
}

/// Adds bytes, a number, and bytes behind it.
pub(crate) fn add_between(
    told: &mut Text,
    before: &[u8],
    number: u128,
    behind: &[u8],
) -> Result<(), Memory>
    ensures { OnOk result (told.new ≡ told.old ++ (before.now ++ decimal number ++ behind.now)) }
{
    told.add(before)?;
    add_number(told, number)?;
    told.add(behind)
}

/// Adds a number of tenths.
pub(crate) fn add_tenths(told: &mut Text, number: u128) -> Result<(), Memory>
    ensures { OnOk result (told.new ≡ told.old ++ tenths number) }
{
    add_number(told, number / 10)?;
    told.add(b".")?;
    add_number(told, number % 10)
}

/// Adds a number of hundredths.
pub(crate) fn add_hundredths(told: &mut Text, number: u128) -> Result<(), Memory>
    ensures { OnOk result (told.new ≡ told.old ++ hundredths number) }
{
    add_number(told, number / 100)?;
    told.add(b".")?;
    add_number(told, number / 10 % 10)?;
    add_number(told, number % 10)
}

/// The mean of `count` numbers whose sum is `sum`, rounded down; 0 where there is none.
pub(crate) fn mean(sum: u128, count: u32) -> u128
    ensures { result ≡ mean sum count }
{
    if count == 0 {
        return 0;
    }
    sum / u128::from(count)
}

/// A share in thousandths of the whole, rounded down; 0 of nothing.
pub(crate) fn share(part: u128, whole: u128) -> u128
    requires { part ≤ activations_limit * 18446744073709551615 }
    ensures { result ≡ share part whole }
{
    if whole == 0 {
        return 0;
    }
    part * 1000 / whole
}

/// How many times as much all is as one, in hundredths, rounded up; of nothing it is as much.
pub(crate) fn ratio(all: u128, one: u128) -> u128
    requires { all ≤ activations_limit * 18446744073709551615 }
    ensures { result ≡ ratio all one }
{
    if one == 0 {
        return 100;
    }
    let hundredfold = all * 100;
    let rest = u128::from(hundredfold % one != 0);
    hundredfold / one + rest
}
