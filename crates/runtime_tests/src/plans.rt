//! Plans of the items of slices.
ghost use Rattle.std.specs.Prelude.{◌≡◌, IfOk};

use flow_core::{Elem, FramePlan, Piece, Plan};
use os_io::{List, Memory};
use std::alloc::Global;

/// The plan of these frames with their numbers, these pieces and these cells.
pub(crate) fn plan_of(
    alloc: Global,
    frames: &[FramePlan],
    sink: FramePlan,
    pieces: &[Piece],
    filled: &[Option<Elem>],
    numbers: &[u32],
) -> Result<Plan, Memory>
    ensures { IfOk result (λ p. p
        ≡ record {
          frames = frames.now;
          sink = sink;
          pieces = pieces.now;
          filled = filled.now;
          numbers = numbers.now;
        }) }
{
    Ok(Plan {
        frames: List::from_slice(alloc, frames)?,
        sink,
        pieces: List::from_slice(alloc, pieces)?,
        filled: List::from_slice(alloc, filled)?,
        numbers: List::from_slice(alloc, numbers)?,
    })
}
