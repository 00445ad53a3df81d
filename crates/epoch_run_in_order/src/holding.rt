//! What is held of activations that ran in control order.

ghost use Rattle.std.specs.Prelude.{◌≡◌, ◌<◌, ◌++◌, [], ℕ, IfOk, List, OnOk, length, map, slice_index, slice_index_or};
ghost use Rattle.epoch_run_bodies.specs.Frames.{frame_outcome};
ghost use Rattle.epoch_run_in_order_laws.specs.InOrder.{kept_in, kept_on};
ghost use Rattle.flow_core_epochs.specs.Epoch.{IsHeld};
ghost use Rattle.flow_core_laws.specs.declared.activation.Activation.{Activation};
ghost use Rattle.os_code.specs.declared.parts.Parts.{Parts};
ghost use Rattle.stream_match.specs.Kept.{kept_of};
ghost use Rattle.stream_match_layouts.specs.Lawful.{AreLawful};
ghost use Rattle.epoch_run_in_order.specs.Standing.{StandsBehind};

use crate::in_order::{HeldInOrder, InOrder};
use crate::streams::Streams;
use epoch_run_carrying::{add_elements, cursor_of};
use epoch_run_in_order_laws::laws::in_order_and_in_epochs;
use flow_core_laws::{Elem, Ends};
use os_io::{List, Memory};
use std::alloc::Global;
use std::mem;
use stream_match::Kept;

impl InOrder {
    /// What is held of the activations that ran: how they ended, the output, and what the streams hold of them.
    pub fn hold(self, alloc: Global) -> Result<HeldInOrder, Memory>
        ensures ends { IfOk result (λ held. held.ends.ends ≡ self.ends) }
        ensures held { IfOk result (λ held. (code : Parts) (all before : List Activation) (input : List ℕ) (budget : ℕ)
            → AreLawful (length self.streams.elements) before → StandsBehind code all before input budget self
            → IsHeld before input (frame_outcome code all budget) held.ends.ends (map kept_of held.kept.items) held.ends.output) }
    {
        in_order_and_in_epochs();
        let mut streams = self.streams;
        let kept = keep_all(alloc, &streams)?;
        let output = take_output(alloc, &mut streams.elements);
        let ends = Ends {
            ends: self.ends,
            output,
        };
        Ok(HeldInOrder { ends, kept })
    }
}

/// The elements of all declared streams, each with its place, those that are there.
fn keep_all(alloc: Global, streams: &Streams) -> Result<Vec<Kept>, Memory>
    ensures { IfOk result (λ kept. map kept_of kept.items ≡ kept_in streams.now.elements streams.now.firsts) }
{
    let Ok(count) = u32::try_from(streams.elements.len()) else {
        return Err(Memory);
    };
    let mut kept = Vec::new(alloc);
    for stream in 2..count {
        keep(&mut kept, streams, stream)?;
    }
    Ok(kept)
}

/// Adds the elements of a stream. It answers `Memory` too where the position behind them is above the largest `u64`.
fn keep(kept: &mut Vec<Kept>, streams: &Streams, stream: u32) -> Result<(), Memory>
    requires { stream < length streams.now.elements }
    ensures { OnOk result (map kept_of kept.new.items ≡ map kept_of kept.old.items
        ++ kept_on stream (slice_index streams.now.firsts stream) (slice_index_or streams.now.elements stream [])) }
{
    let elements = streams.elements.as_slice()[stream as usize].as_slice();
    let first = cursor_of(streams.firsts.as_slice(), stream as usize);
    if elements.len() as u64 > u64::MAX - first {
        return Err(Memory);
    }
    add_elements(kept, stream, first, elements)?;
    Ok(())
}

/// Takes the elements of the output out of those of the streams.
fn take_output(alloc: Global, elements: &mut List<List<Option<Elem>>>) -> List<Option<Elem>>
    ensures { result ≡ slice_index_or elements.old 1 [] }
{
    if elements.len() < 2 {
        return List::new(alloc);
    }
    mem::replace(&mut elements.as_mut_slice()[1], List::new(alloc))
}
