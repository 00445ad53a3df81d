ghost use Rattle.std.specs.Prelude.{◌≡◌};

use os_io::{Failed, WriteError};
use std::alloc::AllocError;
use thiserror::Error;

/// What is wrong with a slot, or with the piece that was packed of one.
#[derive(Clone, Copy, Debug, PartialEq, Eq)]
pub enum SlotFault {
    /// The file ends inside it.
    EndsEarly,
    /// Its length in bytes passes what a slot holds.
    TooLong { length: u16 },
}

/// Why not all was packed or unpacked.
#[derive(Debug, Drop, Error)]
pub enum PackError {
    /// A slot, or a piece in its place, is refused. They are counted from 0.
    #[error("slot {number} is refused")]
    Slot { number: u64, fault: SlotFault },
    /// The file could not be read.
    #[error("the file cannot be read")]
    Read,
    /// Not all could be written.
    #[error("the output did not take all")]
    Write(WriteError),
    /// Memory could not be had.
    #[error("out of memory")]
    Memory,
    /// There are more slots than can be counted.
    #[error("there are more slots than can be counted")]
    Uncounted,
}

impl From<Failed> for PackError {
    ghost use Rattle.ospack_slots.specs.declared.errors.PackError.TheVariants as pack_error;

    ghost from_gives = { λ _ error. error ≡ pack_error.Read };

    fn from(_failed: Failed) -> PackError {
        PackError::Read
    }
}

impl From<WriteError> for PackError {
    ghost use Rattle.ospack_slots.specs.declared.errors.PackError.TheVariants as pack_error;

    ghost from_gives = { λ failed error. error ≡ pack_error.Write failed };

    fn from(failed: WriteError) -> PackError {
        PackError::Write(failed)
    }
}

impl From<AllocError> for PackError {
    ghost use Rattle.ospack_slots.specs.declared.errors.PackError.TheVariants as pack_error;

    ghost from_gives = { λ _ error. error ≡ pack_error.Memory };

    fn from(_error: AllocError) -> PackError {
        PackError::Memory
    }
}
