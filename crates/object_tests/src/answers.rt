//! What `decode` answers, over objects that are written out as numbers.

use os_io::{Memory, READ_LIMIT};
use os_object::{ObjectError, decode, encode};
use std::alloc::Global;

/// What bytes are read as.
#[derive(Clone, Copy, Debug, PartialEq, Eq)]
pub(crate) enum Answer {
    /// A code, and what is written of it are the same bytes.
    Code,
    /// A code of which other bytes are written.
    Other,
    Format,
    Invalid,
    Memory,
}

/// What bytes are read as.
pub(crate) fn answer_of(alloc: Global, bytes: &[u8]) -> Answer {
    if bytes.len() > READ_LIMIT as usize {
        return Answer::Memory;
    }
    match decode(alloc, bytes) {
        Ok(code) => match encode(alloc, &code) {
            Ok(again) => {
                if again.as_slice() == bytes {
                    Answer::Code
                } else {
                    Answer::Other
                }
            }
            Err(_) => Answer::Memory,
        },
        Err(ObjectError::Format) => Answer::Format,
        Err(ObjectError::Invalid) => Answer::Invalid,
        Err(ObjectError::Memory) => Answer::Memory,
    }
}

/// The bytes of an object with these numbers.
pub(crate) fn object_of(alloc: Global, numbers: &[u32]) -> Result<Vec<u8>, Memory> {
    let mut object = Vec::from_slice(alloc, b"OSO1")?;
    for number in numbers {
        object.extend_from_slice(&number.to_le_bytes())?;
    }
    Ok(object)
}

/// What an object with these numbers is read as.
pub(crate) fn answer_to(alloc: Global, numbers: &[u32]) -> Answer {
    match object_of(alloc, numbers) {
        Ok(object) => answer_of(alloc, object.as_slice()),
        Err(_) => Answer::Memory,
    }
}

/// Whether objects with these numbers are read so.
pub(crate) fn are_answered(alloc: Global, rows: &[(&[u32], Answer)]) -> bool {
    for (numbers, answer) in rows {
        if answer_to(alloc, *numbers) != *answer {
            return false;
        }
    }
    true
}
