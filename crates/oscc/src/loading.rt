//! The bytes of a file.

ghost use Rattle.std.specs.Prelude.{◌≤◌, length, IfOk};
ghost use Rattle.os_io.specs.Limits.{read_limit};
ghost use Rattle.os_lexer.specs.Limits.{text_limit};

use front_end::TEXT_LIMIT;
use os_io::{HostFiles, Loaded, READ_LIMIT, ReadError, read_whole};
use std::alloc::Global;
use std::rt::Files;

/// Why the bytes of a file can't be had.
#[derive(Clone, Copy, Drop)]
pub(crate) enum NoBytes {
    /// It has more bytes than this.
    TooLong(u64),
    /// It can't be read.
    Failed,
    /// Memory could not be had.
    Memory,
}

/// The bytes of a file of at most as many.
fn bytes_of<R: Files>(rt: &R, alloc: Global, name: &str, most: u64) -> Result<Vec<u8>, NoBytes>
    requires { most ≤ read_limit }
    ensures { IfOk result (λ bytes. length bytes.items ≤ most) }
{
    match read_whole(alloc, &mut HostFiles::new(rt), name, most) {
        Ok(Loaded::Whole(bytes)) => Ok(bytes),
        Ok(Loaded::TooLong) => Err(NoBytes::TooLong(most)),
        Err(ReadError::Failed) => Err(NoBytes::Failed),
        Err(ReadError::Memory) => Err(NoBytes::Memory),
    }
}

/// The text of a file.
pub(crate) fn text_of<R: Files>(rt: &R, alloc: Global, name: &str) -> Result<Vec<u8>, NoBytes>
    ensures { IfOk result (λ text. length text.items ≤ text_limit) }
{
    bytes_of(rt, alloc, name, TEXT_LIMIT as u64)
}

/// The object of a file.
pub(crate) fn object_of<R: Files>(rt: &R, alloc: Global, name: &str) -> Result<Vec<u8>, NoBytes>
    ensures { IfOk result (λ object. length object.items ≤ read_limit) }
{
    bytes_of(rt, alloc, name, READ_LIMIT)
}
