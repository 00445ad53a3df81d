ghost use Rattle.std.specs.Prelude.{◌≡◌, ◌++◌, IfOk};

use os_io::Memory;
use std::alloc::Global;

/// The input of a part that a state was handed to: the state, and the part after it.
pub fn with_state(alloc: Global, state: &[u8], part: &[u8]) -> Result<Vec<u8>, Memory>
    ensures { IfOk result (λ input. input.items ≡ state.now ++ part.now) }
{
    let mut input = Vec::from_slice(alloc, state)?;
    input.reserve(part.len())?;
    input.extend_from_slice(part)?;
    Ok(input)
}
