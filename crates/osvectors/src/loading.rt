//! The bytes of a file.

ghost use Rattle.std.specs.Prelude.{◌≤◌, length, IfOk};
ghost use Rattle.os_io.specs.Limits.{read_limit};

use os_io::{HostFiles, Loaded, READ_LIMIT, ReadError, read_whole};
use std::alloc::Global;
use std::rt::Files;

/// Why the bytes of a file can't be had.
#[derive(Clone, Copy, Debug)]
pub(crate) enum NoBytes {
    /// It has more bytes than are read of a file.
    TooLong,
    /// It can't be read.
    Failed,
    /// Memory could not be had.
    Memory,
}

/// The bytes of a file.
pub(crate) fn bytes_of<R: Files>(rt: &R, alloc: Global, name: &str) -> Result<Vec<u8>, NoBytes>
    ensures { IfOk result (λ bytes. length bytes.items ≤ read_limit) }
{
    match read_whole(alloc, &mut HostFiles::new(rt), name, READ_LIMIT) {
        Ok(Loaded::Whole(bytes)) => Ok(bytes),
        Ok(Loaded::TooLong) => Err(NoBytes::TooLong),
        Err(ReadError::Failed) => Err(NoBytes::Failed),
        Err(ReadError::Memory) => Err(NoBytes::Memory),
    }
}
