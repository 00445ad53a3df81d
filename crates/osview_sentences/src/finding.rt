ghost use Rattle.std.specs.Prelude.{◌≡◌, ◌<◌, ◌++◌, List, IfOk, OnOk, length, slice_index_or};
ghost use Rattle.flow_core_laws.specs.declared.activation.Activation.{Activation};
ghost use Rattle.osview_sentences.specs.Facts.{ended_by, fact_of, given_by_none, sentence_at, sentence_of, sentences, supply_of, waiting_for};
ghost use Rattle.stream_match_layouts.specs.Layout.{IsLayout, IsLayoutOf};
ghost use Rattle.stream_match_layouts.specs.Spans.{frame_count};

use crate::fact::{Fact, Sentence, Supply};
use collector::{Missing, first_missing};
use flow_core_laws::{Ends, TaskEnd};
use os_io::Memory;
use std::alloc::Global;
use stream_match_layouts::Layout;

/// An element that no activation writes.
fn given_by_none(stream: u32) -> Supply
    ensures { result ≡ given_by_none stream }
{
    if stream == 0 {
        Supply::Ended
    } else {
        Supply::Nobody
    }
}

/// Who should give the element that an activation misses.
fn supply_of(frame: u32, missing: Missing) -> Supply
    ensures { result ≡ supply_of frame missing }
{
    match missing.producer {
        Some(giver) => {
            if giver == frame {
                return Supply::Itself;
            }
            Supply::Waiting { giver }
        }
        None => given_by_none(missing.stream),
    }
}

/// An activation waits for its first missing element.
fn waiting_for(frame: u32, missing: Missing) -> Fact
    ensures { result ≡ waiting_for frame missing }
{
    Fact::Waits {
        stream: missing.stream,
        position: missing.position,
        supply: supply_of(frame, missing),
    }
}

/// What became of an activation with an end.
fn ended_by(end: TaskEnd) -> Option<Fact>
    ensures { result ≡ ended_by end }
{
    match end {
        TaskEnd::Done => None,
        TaskEnd::Trapped { code, line } => Some(Fact::Trapped { code, line }),
        TaskEnd::OverBudget => Some(Fact::OverBudget),
        TaskEnd::Poisoned { root } => Some(Fact::Poisoned { root }),
    }
}

/// What became of an activation, if it isn't done.
pub(crate) fn fact_of(layout: &Layout, ends: &Ends, frame: u32) -> Option<Fact>
    requires layout { IsLayout layout.now }
    requires exists { frame < frame_count layout.now }
    ensures { (activations : List Activation) → IsLayoutOf layout.now activations
        → result ≡ fact_of activations layout.now.input_len ends.now.ends frame }
{
    if let Some(end) = ends.end_of(frame) {
        return ended_by(end);
    }
    match first_missing(layout, ends, frame) {
        Some(missing) => Some(waiting_for(frame, missing)),
        None => None,
    }
}

/// The line of an activation's task.
pub fn line_of(lines: &[u32], frame: u32) -> u32
    ensures { result ≡ slice_index_or lines.now frame 0 }
{
    match lines.get(frame as usize) {
        Some(line) => *line,
        None => 0,
    }
}

/// Adds the sentence of an activation, if it isn't done.
fn add_sentence(
    found: &mut Vec<Sentence>,
    frame: u32,
    line: u32,
    fact: Option<Fact>,
) -> Result<(), Memory>
    ensures { OnOk result (found.new.items ≡ found.old.items ++ sentence_of frame line fact) }
{
    let Some(fact) = fact else {
        return Ok(());
    };
    found.push(Sentence {
        activation: frame,
        task_line: line,
        fact,
    })?;
    Ok(())
}

/// The sentences of the activations that aren't done, in control order.
pub(crate) fn sentences(
    alloc: Global,
    layout: &Layout,
    ends: &Ends,
    lines: &[u32],
) -> Result<Vec<Sentence>, Memory>
    requires { IsLayout layout.now }
    ensures { IfOk result (λ found. (activations : List Activation) → IsLayoutOf layout.now activations
        → found.items ≡ sentences activations layout.now.input_len ends.now.ends lines.now) }
{
    let mut found = Vec::new(alloc);
    for frame in 0..layout.starts.len() as u32 - 1 {
        let fact = fact_of(layout, ends, frame);
        add_sentence(&mut found, frame, line_of(lines, frame), fact)?;
    }
    Ok(found)
}
