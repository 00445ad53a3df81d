ghost use Rattle.std.specs.Prelude.{◌≡◌};
ghost use Rattle.window_check.specs.declared.check_error.CheckError.TheVariants as errors;

use os_io::Memory;
use std::alloc::AllocFailed;
use thiserror::Error;

/// Why a program was not accepted.
#[derive(Clone, Copy, Debug, PartialEq, Eq, Error)]
pub enum CheckError {
    /// The program is refused: the code of the least violation's rule, from 10 to 24, and the line of its token.
    #[error("rule {code} is violated in line {line}")]
    Fault { code: u8, line: u32 },
    /// Memory could not be had.
    #[error("memory could not be had")]
    Memory,
}

impl From<Memory> for CheckError {
    ghost from_gives = { λ _ e. e ≡ errors.Memory };

    fn from(_memory: Memory) -> CheckError {
        CheckError::Memory
    }
}
