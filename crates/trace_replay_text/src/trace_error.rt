ghost use Rattle.std.specs.Prelude.{◌≡◌};
ghost use Rattle.trace_replay_text.specs.declared.trace_error.TraceError.TheVariants as trace_error;

use os_io::Memory;
use std::alloc::{AllocError, AllocFailed};
use thiserror::Error;

/// Why a text gives no lists of frames.
#[derive(Clone, Copy, Debug, PartialEq, Eq, Error)]
pub enum TraceError {
    /// It is no trace: the first line that isn't one of a trace, counted from 1 on. It is 65 where more follows behind 64 workers, and 1
    /// for an empty text.
    #[error("line {0} is none of a trace")]
    Line(u32),
    /// Memory could not be had.
    #[error("out of memory")]
    Memory,
}

impl From<Memory> for TraceError {
    ghost from_gives = { λ _ error. error ≡ trace_error.Memory };

    fn from(_error: Memory) -> TraceError {
        TraceError::Memory
    }
}
