//! Texts that are put together of pieces.

use std::process::Abort;

/// Adds `count` copies of a piece to a text.
pub(crate) fn push(rt: &impl Abort, text: &mut String, piece: &str, count: u32) {
    for _ in 0..count {
        text.push_str(piece).expect(rt, "memory");
    }
}
