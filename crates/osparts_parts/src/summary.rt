ghost use Rattle.std.specs.Prelude.{◌≡◌, IfOk, string_bytes};
ghost use Rattle.osparts_parts.specs.Summary.{plural, summary_line};

use os_io::Memory;
use std::alloc::Global;

/// What stands after the word for several.
fn plural(count: u64) -> &'static str
    ensures { result.now ≡ plural count }
{
    if count == 1 { "" } else { "s" }
}

/// The line that sums a run up in which all parts are all done: how many there were, and how many bytes they have in all.
pub fn summary_line(alloc: Global, parts: u64, bytes: u64) -> Result<String, Memory>
    ensures { IfOk result (λ text. string_bytes text ≡ summary_line parts bytes) }
{
    let (part_end, byte_end) = (plural(parts), plural(bytes));
    Ok(format!(in alloc; "{parts} part{part_end}, all done, {bytes} byte{byte_end}\n")?)
}
