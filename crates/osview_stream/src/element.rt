ghost use Rattle.std.specs.Prelude.{◌≡◌, ◌<◌, ◌+◌, ◌-◌, ℕ, [], None, IfSome, List, slice_get, slice_index_or};
ghost use Rattle.std.specs.Option.{option_map};
ghost use Rattle.flow_core_laws.specs.declared.activation.Activation.{Activation};
ghost use Rattle.flow_core_laws.specs.Element.{output_element};
ghost use Rattle.flow_core_laws.specs.Outcome.{State};
ghost use Rattle.flow_core_laws.specs.Streams.{input_source, produced_source, stream_element};
ghost use Rattle.flow_core_laws.specs.Window.{producer};
ghost use Rattle.osview_outcomes.specs.Outcomes.{AreOutcomesOf};
ghost use Rattle.osview_stream.specs.Given.{element_given};
ghost use Rattle.stream_match_layouts.specs.Layout.{span_of};

use flow_core::{Elem, TaskEnd};
use osview_outcomes::Outcomes;
use stream_match_layouts::Span;

/// The element of the input at a position.
pub(crate) fn input_element(input: &[u8], position: u64) -> Option<Elem>
    ensures { (state : State) → result ≡ stream_element state (input_source input.now position) }
{
    match input.get(position as usize) {
        Some(byte) => Some(Elem::Value(i32::from(*byte))),
        None => None,
    }
}

/// The end of an activation, if it has one.
fn end_of(outcomes: &Outcomes, activation: u32) -> Option<TaskEnd>
    ensures { result ≡ slice_index_or outcomes.now.ends.items activation None }
{
    match outcomes.ends.get(activation as usize) {
        Some(end) => *end,
        None => None,
    }
}

/// The value that an activation wrote at a place of its outputs.
fn value_at(outcomes: &Outcomes, activation: u32, place: usize) -> Option<i32>
    ensures { result ≡ slice_get (slice_index_or outcomes.now.outputs activation []) place }
{
    match outcomes.outputs.as_slice().get(activation as usize) {
        Some(outputs) => outputs.as_slice().get(place).copied(),
        None => None,
    }
}

/// The output element of an activation at a place, by the root of its end.
fn output_element(
    outcomes: &Outcomes,
    activation: u32,
    root: Option<u32>,
    place: usize,
) -> Option<Elem>
    ensures { result ≡ output_element root (slice_index_or outcomes.now.outputs activation []) place }
{
    if let Some(root) = root {
        return Some(Elem::Poison(root));
    }
    match value_at(outcomes, activation, place) {
        Some(value) => Some(Elem::Value(value)),
        None => None,
    }
}

/// The element that an activation gives at a place of its outputs, if it has an end.
fn written_at(outcomes: &Outcomes, activation: u32, place: usize) -> Option<Elem>
    ensures { result ≡ element_given outcomes.now activation place }
{
    match end_of(outcomes, activation) {
        Some(end) => output_element(outcomes, activation, end.root(activation), place),
        None => None,
    }
}

/// The element at a position of a stream that a write span covers.
fn covered_element(outcomes: &Outcomes, span: Span, position: u64) -> Option<Elem>
    requires { position < span.first + span.count }
    ensures { result ≡ element_given outcomes.now span.frame (span.offset + (position - span.first)) }
{
    let place = u64::from(span.offset) + position.saturating_sub(span.first);
    written_at(outcomes, u32::from(span.frame), place as usize)
}

/// The element at a position of a stream other than the input, by the write span that covers it.
pub(crate) fn produced_element(
    outcomes: &Outcomes,
    span: Option<Span>,
    position: u64,
) -> Option<Elem>
    requires { IfSome span (λ s. position < s.first + s.count) }
    ensures { (activations : List Activation) (state : State) (stream : ℕ) → AreOutcomesOf outcomes.now state
        → span ≡ option_map span_of (producer activations stream position)
        → result ≡ stream_element state (produced_source activations stream position) }
{
    match span {
        Some(span) => covered_element(outcomes, span, position),
        None => None,
    }
}
