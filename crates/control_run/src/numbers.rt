ghost use Rattle.std.specs.Prelude.{◌≡◌};
ghost use Rattle.c_int.specs.Operators as operator;
ghost use Rattle.os_code.specs.Machine as machine;

use flow_core_laws::{HORIZON_LIMIT, MOVE_LIMIT};

/// A window's size: 1 to 65,536.
#[inline(always)]
pub(crate) fn size_of(number: i32) -> Option<u32>
    ensures { result ≡ machine.size_of number }
{
    if number >= 1 && number <= HORIZON_LIMIT as i32 {
        Some(number as u32)
    } else {
        None
    }
}

/// A burst or an amount: 0 to 65,536.
#[inline(always)]
pub(crate) fn amount_of(number: i32) -> Option<u32>
    ensures { result ≡ machine.amount_of number }
{
    if number >= 0 && number <= MOVE_LIMIT as i32 {
        Some(number as u32)
    } else {
        None
    }
}

/// Whether two numbers are the same.
#[inline(always)]
pub(crate) fn is_equal(number: i32, other: i32) -> bool
    ensures { result ≡ operator.is_equal number other }
{
    number == other
}

/// The number of the stream that stands `index` behind a first one; none where there is no such stream, or it is the forbidden one.
#[inline(always)]
pub(crate) fn stream_of(streams: u32, forbidden: u32, first: u32, index: i32) -> Option<u32>
    ensures { result ≡ machine.stream_of streams forbidden first index }
{
    // A negative number, taken as an unsigned one, is larger than the number of any stream.
    let stream = (i64::from(first) + i64::from(index)).cast_unsigned();
    if stream < u64::from(streams) && stream != u64::from(forbidden) {
        Some(stream as u32)
    } else {
        None
    }
}
