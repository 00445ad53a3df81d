ghost use Rattle.std.specs.Prelude.{◌≡◌};
ghost use Rattle.os_object.specs.declared.object_error.ObjectError.TheVariants as object_error;

use os_io::Memory;
use std::alloc::{AllocError, AllocFailed};
use thiserror::Error;

/// Why bytes give no code.
#[derive(Clone, Copy, Debug, PartialEq, Eq, Error)]
pub enum ObjectError {
    /// They are not of the format: they spell no parts of a code.
    #[error("the bytes spell no code")]
    Format,
    /// They spell parts of a code that are not valid.
    #[error("the code is not valid")]
    Invalid,
    /// Memory could not be had.
    #[error("out of memory")]
    Memory,
}

impl From<Memory> for ObjectError {
    ghost from_gives = { λ _ error. error ≡ object_error.Memory };

    fn from(_error: Memory) -> ObjectError {
        ObjectError::Memory
    }
}

impl From<AllocError> for ObjectError {
    ghost from_gives = { λ _ error. error ≡ object_error.Memory };

    fn from(_error: AllocError) -> ObjectError {
        ObjectError::Memory
    }
}

impl<T: Drop> From<AllocFailed<T>> for ObjectError {
    ghost from_gives = { λ _ error. error ≡ object_error.Memory };

    fn from(_error: AllocFailed<T>) -> ObjectError {
        ObjectError::Memory
    }
}
