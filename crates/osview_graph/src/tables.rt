ghost use Rattle.std.specs.Prelude.{◌≡◌, ◌+◌, ◌^◌, ◌<◌, IfOk, replicate, slice_index, slice_index_or, slice_set};

use os_io::Memory;
use std::alloc::Global;

/// A table of `count` zeros.
pub(crate) fn zeros(alloc: Global, count: usize) -> Result<Vec<u64>, Memory>
    ensures { IfOk result (λ table. table.items ≡ replicate count 0) }
{
    let table = vec![in alloc; 0u64; count]?;
    Ok(table)
}

/// The number of a row; 0 where there is no such row.
pub(crate) fn row(table: &[u64], at: u64) -> u64
    ensures { result ≡ slice_index_or table.now at 0 }
{
    match table.get(at as usize) {
        Some(count) => *count,
        None => 0,
    }
}

/// Sets a row, if there is such a row.
pub(crate) fn set_row(table: &mut Vec<u64>, at: u64, count: u64)
    ensures { table.new.items ≡ slice_set table.old.items at count }
{
    let place = at as usize;
    if place < table.len() {
        table[place] = count;
    }
}

/// Adds an amount to a row, if there is such a row.
pub(crate) fn raise(table: &mut Vec<u64>, at: u64, amount: u64)
    requires { slice_index_or table.old.items at 0 + amount < 2 ^ 64 }
    ensures { table.new.items ≡ slice_set table.old.items at (slice_index_or table.old.items at 0 + amount) }
{
    let count = row(table, at) + amount;
    set_row(table, at, count);
}
