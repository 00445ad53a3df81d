//! Pieces for a sink, and what it takes of them.

use os_io::{Failed, Sink};
use std::process::Abort;

/// A piece, and how many of its bytes are taken or that the call fails.
pub(crate) type Step<'a> = (&'a [u8], Result<usize, Failed>);

/// Asks that a sink takes of each piece what it is to, one after another.
pub(crate) fn takes<S: Sink>(rt: &impl Abort, sink: &mut S, steps: &[Step<'_>]) {
    for (piece, wanted) in steps {
        assert!(rt; sink.write(*piece) == *wanted);
    }
}
