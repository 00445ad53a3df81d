//! Running the next activation.

ghost use Rattle.std.specs.Prelude.{◌≡◌, ◌∷◌, ◌++◌, ◌+◌, ◌^◌, ◌<◌, ◌≤◌, ℕ, [], All, IfOk, List, None, OnOk, Some, false, length, map, slice_get, true};
ghost use Rattle.flow_core_laws.specs.Limits.{budget_limit};
ghost use Rattle.flow_core_laws.specs.Poisoning.{least_root, values_of};
ghost use Rattle.flow_core_laws.specs.Streams.{output_count};
ghost use Rattle.flow_core_laws.specs.Window.{windows_of};
ghost use Rattle.flow_core_laws.specs.declared.activation.Activation.{Activation};
ghost use Rattle.flow_core_laws.specs.declared.elem.Elem.{Elem};
ghost use Rattle.os_code.specs.Codes.{parts_of};
ghost use Rattle.os_code.specs.Tasks.{Fits, input_count};
ghost use Rattle.stream_match_layouts.specs.Layout.{span_of};
ghost use Rattle.stream_match_layouts.specs.declared.span.Span.{Span};
ghost use Rattle.task_vm.specs.Space.{IsMadeFor};
ghost use Rattle.epoch_run_in_order.specs.Reading.{values_in};
ghost use Rattle.epoch_run_in_order.specs.Standing.{AreNext, IsReady, StandsApart, StandsBehind, outcome_by};

use crate::in_order::InOrder;
use crate::inputs::Inputs;
use epoch_run_in_order_laws::laws::apart_and_joined;
use flow_core::fit;
use flow_core_laws::{Activation, TaskEnd};
use os_code::Code;
use os_io::Memory;
use stream_match_layouts::Span;
use task_vm::{Scratch, run_task};

impl InOrder {
    /// Runs the next activation, which has this number, by its spans, if all that it reads is there. It answers whether it ran: if not, the
    /// ends and the streams are as they were. After `Memory` the run is to be given up.
    pub(crate) fn run_next(
        &mut self,
        code: &Code,
        number: u32,
        activation: &Activation,
        spans: &[Span],
        input: &[u8],
        budget: u64,
    ) -> Result<bool, Memory>
        requires fits { Fits (parts_of code.now) activation.now }
        requires budget { budget ≤ budget_limit }
        requires ready { IsReady code.now self.old }
        requires next { AreNext number activation.now spans.now }
        requires exist { All (λ (s : Span). s.stream < code.now.streams) spans.now }
        ensures ready { OnOk result (IsReady code.now self.new) }
        ensures waits { IfOk result (λ ran. ran ≡ false → (self.new.ends ≡ self.old.ends) × (self.new.streams ≡ self.old.streams)) }
        ensures count { IfOk result (λ ran. ran ≡ true → length self.new.ends ≡ length self.old.ends + 1) }
        ensures ran { IfOk result (λ ran. ran ≡ true → (all before : List Activation) → length before ≡ number
            → slice_get all (length before) ≡ Some activation.now
            → spans.now ≡ map span_of (windows_of (before ++ activation.now ∷ []) (length before))
            → StandsBehind (parts_of code.now) all before input.now budget self.old
            → StandsBehind (parts_of code.now) all (before ++ activation.now ∷ []) input.now budget self.new) }
        ensures ran_apart { IfOk result (λ ran. ran ≡ true → (all before : List Activation) (from : ℕ) → length before ≡ number
            → slice_get all (length before) ≡ Some activation.now
            → spans.now ≡ map span_of (windows_of (before ++ activation.now ∷ []) (length before))
            → StandsApart (parts_of code.now) all from before input.now budget self.old
            → StandsApart (parts_of code.now) all from (before ++ activation.now ∷ []) input.now budget self.new) }
    {
        apart_and_joined();
        let read = self.inputs.read_all(&self.streams, input, spans)?;
        let Some(written) = read else {
            return Ok(false);
        };
        let end = end_of(
            code,
            activation,
            &self.inputs,
            &mut self.outputs,
            written,
            &mut self.scratch,
            budget,
        )?;
        self.steps = self.steps.saturating_add(self.scratch.steps());
        let root = end.root(number);
        self.streams
            .write_all(spans, root, self.outputs.as_slice())?;
        self.ends.push(Some(end))?;
        Ok(true)
    }
}

/// How an activation ends whose inputs were read: poisoned, where one of them is poison, and else as its body does, which runs on
/// their values and writes into a buffer.
fn end_of(
    code: &Code,
    activation: &Activation,
    inputs: &Inputs,
    outputs: &mut Vec<i32>,
    count: usize,
    scratch: &mut Scratch,
    budget: u64,
) -> Result<TaskEnd, Memory>
    requires fits { Fits (parts_of code.now) activation.now }
    requires budget { budget ≤ budget_limit }
    requires made { IsMadeFor (parts_of code.now) scratch.old }
    requires inputs { inputs.now.root ≡ None → length (values_in inputs.now) ≡ input_count activation.now }
    requires count { count ≡ output_count activation.now }
    ensures made { OnOk result (IsMadeFor (parts_of code.now) scratch.new) }
    ensures end { IfOk result (λ end. (elements : List Elem) → inputs.now.root ≡ least_root elements
        → values_in inputs.now ≡ values_of elements → end ≡ (outcome_by (parts_of code.now) activation.now elements budget).end) }
    ensures outputs { IfOk result (λ end. end ≡ TaskEnd.Done → (elements : List Elem) → inputs.now.root ≡ least_root elements
        → values_in inputs.now ≡ values_of elements
        → outputs.new.items ≡ (outcome_by (parts_of code.now) activation.now elements budget).outputs) }
    ensures room { IfOk result (λ end. end ≡ TaskEnd.Done → length outputs.new.items ≡ count) }
{
    if let Some(root) = inputs.root {
        return Ok(TaskEnd::Poisoned { root });
    }
    fit(outputs, count)?;
    Ok(run_task(
        code,
        activation,
        inputs.values(),
        outputs.as_mut_slice(),
        scratch,
        budget,
    ))
}
