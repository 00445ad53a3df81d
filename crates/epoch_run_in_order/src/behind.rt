//! A run in control order that goes on behind activations that all have ended.

ghost use Rattle.std.specs.Prelude.{◌≡◌, ℕ, IfOk, List, length, map};
ghost use Rattle.epoch_run_bodies.specs.Frames.{frame_outcome};
ghost use Rattle.epoch_run_in_order_laws.specs.InOrder.{HaveAllEnded};
ghost use Rattle.flow_core_epochs.specs.Epoch.{IsHeld};
ghost use Rattle.flow_core_laws.specs.declared.activation.Activation.{Activation};
ghost use Rattle.os_code.specs.Codes.{parts_of};
ghost use Rattle.os_code.specs.declared.code.Code.{Code};
ghost use Rattle.stream_match.specs.Kept.{kept_of};
ghost use Rattle.stream_match_layouts.specs.Layout.{IsLayout, IsLayoutOf};
ghost use Rattle.epoch_run_in_order.specs.Standing.{IsReady, StandsBehind, meaning_in};

use crate::in_order::InOrder;
use crate::inputs::Inputs;
use crate::streams_behind::streams_behind;
use epoch_run_in_order_laws::laws::in_order_and_in_epochs;
use flow_core_laws::Ends;
use os_code::Code;
use os_io::Memory;
use std::alloc::Global;
use stream_match::Kept;
use stream_match_layouts::Layout;
use task_vm::Scratch;

/// For how many more ends, and how many more elements of the output, room is taken at the start. An allocator hands so large a block out
/// untouched, so that what isn't used of it costs nothing; a list that grows from less is copied several times.
const ROOM: usize = 32_768;

impl InOrder {
    /// A run that goes on behind activations that all have ended: from how they ended, from the elements of the output, and from what
    /// else of them may still be read. It takes memory for what the code's tasks need, and for each of these elements.
    pub fn behind(
        alloc: Global,
        code: &Code,
        layout: &Layout,
        ends: Ends,
        kept: &[Kept],
    ) -> Result<InOrder, Memory>
        requires layout { IsLayout layout.now }
        requires streams { length layout.now.writers ≡ code.now.streams }
        ensures ready { IfOk result (IsReady code.now) }
        ensures stands { IfOk result (λ order. (all before : List Activation) (input : List ℕ) (budget : ℕ) → IsLayoutOf layout.now before
            → IsHeld before input (frame_outcome (parts_of code.now) all budget) ends.ends (map kept_of kept.now) ends.output
            → HaveAllEnded (meaning_in (parts_of code.now) all before input budget)
            → StandsBehind (parts_of code.now) all before input budget order) }
        ensures count { IfOk result (λ order. length order.ends ≡ length ends.ends) }
    {
        in_order_and_in_epochs();
        let scratch = Scratch::new(alloc, code)?;
        let Ends {
            mut ends,
            mut output,
        } = ends;
        ends.reserve(ROOM)?;
        output.reserve(ROOM)?;
        let streams = streams_behind(alloc, layout, output, kept)?;
        let order = InOrder {
            ends,
            streams,
            inputs: Inputs::new(alloc),
            outputs: Vec::new(alloc),
            scratch,
            steps: 0,
        };
        Ok(order)
    }
}
