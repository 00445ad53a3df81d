ghost use Rattle.std.specs.Prelude.{◌≡◌, IfOk};
ghost use Rattle.kernels.specs.Generated.{generated};

use os_io::Memory;
use std::alloc::Global;

/// The factor of the recurrence, one of a linear congruential generator.
const FACTOR: u32 = 1_103_515_245;

/// What the recurrence adds at each step.
const STEP: u32 = 12_345;

/// Makes `count` bytes from a seed. Each is taken from the high half of the next state.
pub fn generate(alloc: Global, seed: u32, count: u32) -> Result<Vec<u8>, Memory>
    ensures { IfOk result (λ bytes. bytes.items ≡ generated seed count) }
{
    let mut bytes = Vec::new(alloc);
    bytes.reserve(count as usize)?;
    let mut state = seed;
    for _ in 0..count {
        state = state.wrapping_mul(FACTOR).wrapping_add(STEP);
        bytes.push((state / 65536 % 256) as u8)?;
    }
    Ok(bytes)
}
