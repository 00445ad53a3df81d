//! Runs apart from the activations before them.

ghost use Rattle.std.specs.Prelude.{◌≡◌, ◌∷◌, ◌++◌, ◌+◌, ◌<◌, ◌≤◌, ℕ, [], All, IfOk, List, OnOk, Some, false, length, map, slice_get, true};
ghost use Rattle.std.specs.List.{range_with_len};
ghost use Rattle.flow_core_laws.specs.Limits.{budget_limit};
ghost use Rattle.flow_core_laws.specs.Place.{written_count};
ghost use Rattle.flow_core_laws.specs.Window.{windows_of};
ghost use Rattle.flow_core_laws.specs.declared.activation.Activation.{Activation};
ghost use Rattle.os_code.specs.Codes.{parts_of};
ghost use Rattle.os_code.specs.Tasks.{Fits};
ghost use Rattle.stream_match_layouts.specs.Layout.{span_of};
ghost use Rattle.stream_match_layouts.specs.declared.span.Span.{Span};
ghost use Rattle.epoch_run_in_order.specs.Standing.{AreNext, IsReady, StandsApart};

use crate::in_order::InOrder;
use crate::inputs::Inputs;
use crate::streams::Streams;
use flow_core_laws::Activation;
use os_code::Code;
use os_io::{List, Memory};
use std::alloc::Global;
use stream_match_layouts::Span;
use task_vm::Scratch;

/// A run in control order of activations from a number on, apart from those before it: each runs where all that it reads is of the input, or was
/// written by others of these. So several such runs go on at once, and are put one behind the other once those before have ended.
#[derive(Drop)]
pub struct Apart {
    /// How many activations stand before the first one.
    pub first: u32,
    /// How those that ran ended, and what they wrote.
    pub order: InOrder,
}

impl Apart {
    /// A run apart from the first `first` activations, behind which the write cursors are these. It takes memory for what the code's tasks need, and a list
    /// for each stream.
    pub fn behind(alloc: Global, code: &Code, first: u32, writes: &[u64]) -> Result<Apart, Memory>
        requires streams { length writes.now ≡ code.now.streams }
        ensures ready { IfOk result (λ apart. IsReady code.now apart.order) }
        ensures first { IfOk result (λ apart. apart.first ≡ first) }
        ensures none { IfOk result (λ apart. apart.order.ends ≡ []) }
        ensures stands { IfOk result (λ apart. (all before : List Activation) (input : List ℕ) (budget : ℕ) → length before ≡ first
            → writes.now ≡ map (written_count before) (range_with_len 0 code.now.streams)
            → StandsApart (parts_of code.now) all first before input budget apart.order) }
    {
        let scratch = Scratch::new(alloc, code)?;
        let streams = Streams::from_positions(alloc, writes)?;
        Ok(Apart {
            first,
            order: InOrder {
                ends: List::new(alloc),
                streams,
                inputs: Inputs::new(alloc),
                outputs: Vec::new(alloc),
                scratch,
                steps: 0,
            },
        })
    }

    /// Runs the next activation by its spans, if all that it reads is there. It answers whether it ran: if not, the ends and the streams are as
    /// they were. After `Memory` the run is to be given up.
    pub fn run(
        &mut self,
        code: &Code,
        activation: &Activation,
        spans: &[Span],
        input: &[u8],
        budget: u64,
    ) -> Result<bool, Memory>
        requires fits { Fits (parts_of code.now) activation.now }
        requires budget { budget ≤ budget_limit }
        requires ready { IsReady code.now self.old.order }
        requires next { AreNext (self.old.first + length self.old.order.ends) activation.now spans.now }
        requires exist { All (λ (s : Span). s.stream < code.now.streams) spans.now }
        ensures ready { OnOk result (IsReady code.now self.new.order) }
        ensures first { self.new.first ≡ self.old.first }
        ensures waits { IfOk result (λ ran. ran ≡ false → (self.new.order.ends ≡ self.old.order.ends)
            × (self.new.order.streams ≡ self.old.order.streams)) }
        ensures count { IfOk result (λ ran. ran ≡ true → length self.new.order.ends ≡ length self.old.order.ends + 1) }
        ensures ran { IfOk result (λ ran. ran ≡ true → (all before : List Activation) (from : ℕ)
            → length before ≡ self.old.first + length self.old.order.ends
            → slice_get all (length before) ≡ Some activation.now
            → spans.now ≡ map span_of (windows_of (before ++ activation.now ∷ []) (length before))
            → StandsApart (parts_of code.now) all from before input.now budget self.old.order
            → StandsApart (parts_of code.now) all from (before ++ activation.now ∷ []) input.now budget self.new.order) }
    {
        let number = self.first + self.order.ends.len() as u32;
        let ran = self
            .order
            .run_next(code, number, activation, spans, input, budget)?;
        Ok(ran)
    }
}
