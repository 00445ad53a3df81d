//! Where the elements stand that an activation reads.
ghost use Rattle.std.specs.Prelude.{◌≡◌, ◌+◌, ◌<◌, ◌^◌, ℕ, All, IsSome, List, Some, length, slice_get};
ghost use Rattle.std.specs.List.{flat_map};
ghost use Rattle.collector.specs.Walking.{read_places};
ghost use Rattle.flow_core_laws.specs.IsSound.{HasCell};
ghost use Rattle.flow_core_laws.specs.Place.{input_places};
ghost use Rattle.flow_core_laws.specs.StandsFor.{StandsFor};
ghost use Rattle.flow_core_laws.specs.declared.activation.Activation.{Activation};
ghost use Rattle.osrun_core_run.specs.ReplayLine.{IsCellOf};
ghost use Rattle.stream_match_layouts.specs.Layout.{IsLayout, IsLayoutOf};
ghost use Rattle.stream_match_layouts.specs.Spans.{frame_count, read_count, spans_of};

use crate::planning::Planned;
use stream_match::{Layout, Place, Span};

/// How many elements a span reads.
fn read_count(span: Span) -> u32
    ensures { result ≡ read_count span }
{
    if span.write { 0 } else { span.count }
}

/// The place of the element of a number, from 0 on, that a span reads.
fn place_in(span: Span, number: u32) -> Place
    requires fits { span.first + read_count span < 2 ^ 63 }
    requires within { number < read_count span }
    ensures { slice_get (read_places span) number ≡ Some result }
{
    Place {
        stream: span.stream,
        position: span.first + u64::from(number),
    }
}

/// The place of the element of a number, from 0 on, that spans read.
fn read_place(spans: &[Span], number: u32) -> Place
    requires fit { All (λ span. span.first + read_count span < 2 ^ 63) spans.now }
    requires exists { IsSome (slice_get (flat_map read_places spans.now) number) }
    ensures { slice_get (flat_map read_places spans.now) number ≡ Some result }
{
    let mut left = number;
    for span in spans {
        let count = read_count(*span);
        if left < count {
            return place_in(*span, left);
        }
        left -= count;
    }
    unreachable!()
}

/// The place of an activation's input of a number, from 0 on.
fn input_place(layout: &Layout, activation: u32, number: u32) -> Place
    requires layout { IsLayout layout.now }
    requires activation { activation < frame_count layout.now }
    requires exists { IsSome (slice_get (flat_map read_places (spans_of layout.now activation)) number) }
    ensures { (activations : List Activation) → IsLayoutOf layout.now activations
        → slice_get (input_places activations activation) number ≡ Some result }
{
    read_place(layout.spans_of(activation as usize), number)
}

/// The place of the element that belongs into a frame's cell.
pub(crate) fn cell_place(planned: &Planned, frame: u32, cell: u32) -> Place
    requires layout { IsLayout planned.now.layout }
    requires laid { IsLayoutOf planned.now.layout planned.now.control.activations }
    requires stands { (input : List ℕ) × StandsFor planned.now.plan planned.now.control.activations input }
    requires frame { frame < length planned.now.plan.frames }
    requires cell { HasCell planned.now.plan frame cell }
    ensures { IsCellOf planned.now.plan planned.now.control.activations frame cell result }
{
    let first = planned.plan.frame(frame).cell;
    input_place(&planned.layout, frame, cell - first)
}
