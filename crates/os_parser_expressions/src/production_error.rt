ghost use Rattle.std.specs.Prelude.{◌≡◌};
ghost use Rattle.os_parser_expressions.specs.declared.production_error.ProductionError.TheVariants as errors;

use os_io::Memory;
use std::alloc::AllocFailed;
use thiserror::Error;

/// Why a production wasn't read.
#[derive(Clone, Copy, Debug, PartialEq, Eq, Error)]
pub enum ProductionError {
    /// The next token can't stand there. The cursor is left at it.
    #[error("the next token can't stand there")]
    Syntax,
    /// Memory could not be had.
    #[error("memory could not be had")]
    Memory,
}

impl From<Memory> for ProductionError {
    ghost from_gives = { λ _ e. e ≡ errors.Memory };

    fn from(_memory: Memory) -> ProductionError {
        ProductionError::Memory
    }
}

impl<T: Drop> From<AllocFailed<T>> for ProductionError {
    ghost from_gives = { λ _ e. e ≡ errors.Memory };

    fn from(_failed: AllocFailed<T>) -> ProductionError {
        ProductionError::Memory
    }
}
