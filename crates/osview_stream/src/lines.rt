ghost use Rattle.std.specs.Prelude.{◌≡◌, ◌<◌, ◌++◌, ℕ, [], List, IfOk, OnOk, length};
ghost use Rattle.std.specs.Option.{option_map_or};
ghost use Rattle.flow_core_laws.specs.declared.activation.Activation.{Activation};
ghost use Rattle.flow_core_laws.specs.Outcome.{State};
ghost use Rattle.osview_outcomes.specs.Outcomes.{AreOutcomesOf};
ghost use Rattle.osview_stream.specs.Elements.{activation_text, element_line, element_text, position_count, stream_lines};
ghost use Rattle.stream_match_layouts.specs.Layout.{IsLayout, IsLayoutOf};

use crate::element::{input_element, produced_element};
use collector::producer;
use flow_core::Elem;
use os_io::Memory;
use osview_outcomes::Outcomes;
use osview_sentences::{line_of, written_count};
use osview_text::Text;
use std::alloc::Global;
use stream_match_layouts::{Layout, Span};

/// The run whose elements are shown.
#[derive(Clone, Copy)]
pub struct Shown<'a> {
    /// The positions of its activations.
    pub layout: &'a Layout,
    /// What each activation read and wrote, and how it ended.
    pub outcomes: &'a Outcomes,
    /// The bytes of the input that the program ran over.
    pub input: &'a [u8],
    /// The line of each activation's task.
    pub lines: &'a [u32],
}

/// Adds an element.
fn add_element(told: &mut Text, element: Option<Elem>) -> Result<(), Memory>
    ensures { OnOk result (told.new ≡ told.old ++ element_text element) }
{
    match element {
        None => told.add(b"none"),
        Some(Elem::Value(value)) => told.signed(value),
        Some(Elem::Poison(root)) => told.field(b"poison ", u64::from(root)),
    }
}

/// Adds an activation with the line of its task.
fn add_activation(told: &mut Text, lines: &[u32], activation: u32) -> Result<(), Memory>
    ensures { OnOk result (told.new ≡ told.old ++ activation_text lines.now activation) }
{
    told.field(b" activation ", u64::from(activation))?;
    told.field(b" line ", u64::from(line_of(lines, activation)))
}

/// Adds who writes at a position of a stream other than the input.
fn add_writer(told: &mut Text, lines: &[u32], span: Option<Span>) -> Result<(), Memory>
    ensures { OnOk result (told.new ≡ told.old ++ option_map_or (λ s. activation_text lines.now s.frame) span []) }
{
    match span {
        Some(span) => add_activation(told, lines, u32::from(span.frame)),
        None => Ok(()),
    }
}

/// Adds the line of a position of the input.
fn add_input_line(told: &mut Text, input: &[u8], position: u64) -> Result<(), Memory>
    ensures { (lines : List ℕ) (activations : List Activation) (state : State)
        → OnOk result (told.new ≡ told.old ++ element_line lines activations input.now state 0 position) }
{
    told.number(position)?;
    told.add(b" ")?;
    add_element(told, input_element(input, position))?;
    told.add(b" input\n")
}

/// Adds the line of a position of another stream.
fn add_produced_line(
    told: &mut Text,
    over: &Shown<'_>,
    stream: u32,
    position: u64,
) -> Result<(), Memory>
    requires layout { IsLayout over.now.layout.now }
    requires exists { stream < length over.now.layout.now.writers }
    requires produced { 0 < stream }
    ensures { (activations : List Activation) (state : State) → IsLayoutOf over.now.layout.now activations
        → AreOutcomesOf over.now.outcomes.now state
        → OnOk result (told.new ≡ told.old ++ element_line over.now.lines.now activations over.now.input.now state stream position) }
{
    let span = producer(over.layout, stream, position);
    told.number(position)?;
    told.add(b" ")?;
    add_element(told, produced_element(over.outcomes, span, position))?;
    add_writer(told, over.lines, span)?;
    told.add(b"\n")
}

/// Adds the line of a position.
fn add_line(told: &mut Text, over: &Shown<'_>, stream: u32, position: u64) -> Result<(), Memory>
    requires layout { IsLayout over.now.layout.now }
    requires exists { stream < length over.now.layout.now.writers }
    ensures { (activations : List Activation) (state : State) → IsLayoutOf over.now.layout.now activations
        → AreOutcomesOf over.now.outcomes.now state
        → OnOk result (told.new ≡ told.old ++ element_line over.now.lines.now activations over.now.input.now state stream position) }
{
    if stream == 0 {
        add_input_line(told, over.input, position)
    } else {
        add_produced_line(told, over, stream, position)
    }
}

/// How many positions of a stream there are to show.
fn position_count(layout: &Layout, input: &[u8], stream: u32) -> u64
    requires layout { IsLayout layout.now }
    ensures exists { 0 < result → stream < length layout.now.writers }
    ensures count { (activations : List Activation) → IsLayoutOf layout.now activations
        → result ≡ position_count activations input.now stream }
{
    if stream == 0 {
        input.len() as u64
    } else {
        written_count(layout, stream)
    }
}

/// The lines of a stream's positions from `first` on, at most `count`: the element of each as the run's activations mean it, and who
/// writes there. There are as many positions as the input has bytes; of the other streams as many as are claimed for writing.
pub fn elements_text(
    alloc: Global,
    over: &Shown<'_>,
    stream: u32,
    first: u64,
    count: u64,
) -> Result<Text, Memory>
    requires { IsLayout over.now.layout.now }
    ensures { IfOk result (λ told. (activations : List Activation) (state : State) → IsLayoutOf over.now.layout.now activations
        → AreOutcomesOf over.now.outcomes.now state
        → told ≡ stream_lines over.now.lines.now activations over.now.input.now state stream first count) }
{
    let all = position_count(over.layout, over.input, stream);
    let end = first + count.min(all.saturating_sub(first));
    let mut told = Text::new(alloc);
    for position in first..end {
        add_line(&mut told, over, stream, position)?;
    }
    Ok(told)
}
