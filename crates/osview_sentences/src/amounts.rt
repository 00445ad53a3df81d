ghost use Rattle.std.specs.Prelude.{◌≡◌, ◌++◌, [], All, List, OnOk, find};
ghost use Rattle.std.specs.Option.{option_map_or};
ghost use Rattle.flow_core_laws.specs.declared.activation.Activation.{Activation};
ghost use Rattle.osview_sentences.specs.Amounts.{amounts_text, is_uneven, lack_text, look_text, share_asked_text};
ghost use Rattle.osview_sentences.specs.Amounts.{stream_length, uneven_claim, uneven_text, waits_amounts, window_text};
ghost use Rattle.osview_sentences.specs.Contexts.{IsToldRun};
ghost use Rattle.osview_sentences.specs.Reaches.{IsAsked};
ghost use Rattle.osview_sentences.specs.Readers.{spans_of};
ghost use Rattle.stream_match_layouts.specs.Layout.{IsLayout, IsLayoutOf};

use crate::claimed::written_count;
use crate::fact::{Fact, Supply};
use crate::told_run::ToldRun;
use flow_core_laws::{Activation, Claim};
use os_io::Memory;
use osview_text::Text;
use std::alloc::Global;
use std::collections::BTreeMap;
use stream_match_layouts::{Layout, Span};

/// Up to which position each stream is read.
#[derive(Drop)]
pub(crate) struct Asked {
    ends: BTreeMap<u32, u64>,
}

impl Asked {
    ghost use Rattle.std.specs.Prelude.{◌+◌, ◌^◌, ◌<◌, ℕ, IfOk, if◌then◌else◌, ◌==◌, max};
    ghost use Rattle.collector.specs.Walking.{IsSpanIn};
    ghost use Rattle.osview_sentences.specs.Amounts.{read_to};
    ghost use Rattle.osview_sentences.specs.Reaches.{kept_end};
    ghost use Rattle.stream_match_layouts.specs.declared.layout.Layout.{Layout as LayoutView};

    /// The streams before any claim.
    fn new(alloc: Global) -> Asked
        ensures { (stream : ℕ) → kept_end result stream ≡ 0 }
    {
        Asked {
            ends: BTreeMap::new(alloc),
        }
    }

    /// Up to which position a stream is read.
    fn of_stream(&self, stream: u32) -> u64
        ensures { result ≡ kept_end self.now stream }
    {
        self.ends.get(&stream).copied().unwrap_or(0)
    }

    /// One more claim, which reads a stream up to a position.
    fn raise(&mut self, stream: u32, end: u64) -> Result<(), Memory>
        ensures { OnOk result ((other : ℕ) → kept_end self.new other
            ≡ (if stream == other then max (kept_end self.old stream) end else kept_end self.old other)) }
    {
        let most = self.of_stream(stream).max(end);
        self.ends.insert(stream, most)?;
        Ok(())
    }

    /// Notes one more claim, if it reads.
    fn note(&mut self, span: Span) -> Result<(), Memory>
        requires { (layout : LayoutView) × IsSpanIn layout span }
        ensures { OnOk result ((stream : ℕ) → kept_end self.new stream ≡ max (kept_end self.old stream) (read_to stream span)) }
    {
        if span.write {
            Ok(())
        } else {
            self.raise(span.stream, span.first + u64::from(span.count))
        }
    }

    /// Up to which position some claims read each stream.
    pub(crate) fn of(alloc: Global, layout: &Layout) -> Result<Asked, Memory>
        requires { IsLayout layout.now }
        ensures { IfOk result (IsAsked layout.now.spans) }
    {
        let mut asked = Asked::new(alloc);
        for span in layout.spans.as_slice() {
            asked.note(*span)?;
        }
        Ok(asked)
    }
}

/// How many elements a stream has.
fn stream_length(layout: &Layout, stream: u32) -> u64
    requires { IsLayout layout.now }
    ensures { (activations : List Activation) → IsLayoutOf layout.now activations
        → result ≡ stream_length activations layout.now.input_len stream }
{
    if stream == 0 {
        u64::from(layout.input_len)
    } else {
        written_count(layout, stream)
    }
}

/// Adds that a stream has some of the elements that it is asked for.
fn add_share_asked(told: &mut Text, there: u64, asked: u64) -> Result<(), Memory>
    ensures { OnOk result (told.new ≡ told.old ++ share_asked_text there asked) }
{
    told.field(b"; the stream has ", there)?;
    told.field(b" of the ", asked)?;
    told.add(b" asked for")?;
    Ok(())
}

/// Adds how many elements there are, where the stream ends too early.
fn add_lack(told: &mut Text, supply: Supply, there: u64, asked: u64) -> Result<(), Memory>
    ensures { OnOk result (told.new ≡ told.old ++ lack_text supply there asked) }
{
    match supply {
        Supply::Ended | Supply::Nobody => add_share_asked(told, there, asked),
        Supply::Itself | Supply::Waiting { .. } => Ok(()),
    }
}

/// Adds how many elements a window covers, and by how many it moves the stream on.
pub(crate) fn add_window(told: &mut Text, claim: Claim) -> Result<(), Memory>
    ensures { OnOk result (told.new ≡ told.old ++ window_text claim) }
{
    told.field(b"its window has size ", claim.horizon as u64)?;
    told.field(b" and burst ", claim.burst as u64)?;
    Ok(())
}

/// Adds what a burst of 0 does.
fn add_look(told: &mut Text, burst: u32) -> Result<(), Memory>
    ensures { OnOk result (told.new ≡ told.old ++ look_text burst) }
{
    if burst == 0 {
        told.add(b", which looks without taking")
    } else {
        Ok(())
    }
}

/// Adds the size and the burst of a window.
fn add_uneven(told: &mut Text, claim: Claim) -> Result<(), Memory>
    ensures { OnOk result (told.new ≡ told.old ++ uneven_text claim) }
{
    told.add(b"; ")?;
    add_window(told, claim)?;
    add_look(told, claim.burst)
}

/// Adds the size and the burst of a window, if there is one.
fn add_uneven_if(told: &mut Text, claim: Option<Claim>) -> Result<(), Memory>
    ensures { OnOk result (told.new ≡ told.old ++ option_map_or uneven_text claim []) }
{
    match claim {
        Some(claim) => add_uneven(told, claim),
        None => Ok(()),
    }
}

/// Whether a claim reads a stream with another burst than its size.
fn is_uneven(stream: u32, claim: Claim) -> bool
    ensures { result ≡ is_uneven stream claim }
{
    !claim.write && claim.stream == stream && claim.burst != claim.horizon
}

/// The first of some claims that does.
fn uneven_among(claims: &[Claim], stream: u32) -> Option<Claim>
    ensures { result ≡ find (is_uneven stream) claims.now }
{
    for claim in claims {
        if is_uneven(stream, *claim) {
            return Some(*claim);
        }
    }
    None
}

/// The first claim of an activation that does.
fn uneven_claim(activations: &[Activation], frame: u32, stream: u32) -> Option<Claim>
    ensures { result ≡ uneven_claim activations.now frame stream }
{
    match activations.get(frame as usize) {
        Some(activation) => uneven_among(activation.claims.as_slice(), stream),
        None => None,
    }
}

/// Adds the numbers of elements where an activation waits for one of a stream.
fn add_waits_amounts(
    told: &mut Text,
    run: &ToldRun<'_>,
    asked: &Asked,
    frame: u32,
    stream: u32,
    supply: Supply,
) -> Result<(), Memory>
    requires run { IsToldRun run.now }
    requires asked { IsAsked (spans_of run.now.activations.now) asked.now }
    ensures { OnOk result (told.new ≡ told.old ++ waits_amounts run.now.activations.now run.now.layout.now.input_len frame stream supply) }
{
    let there = stream_length(run.layout, stream);
    add_lack(told, supply, there, asked.of_stream(stream))?;
    add_uneven_if(told, uneven_claim(run.activations, frame, stream))
}

/// Adds what is said of the numbers of elements where an activation waits.
pub(crate) fn add_amounts(
    told: &mut Text,
    run: &ToldRun<'_>,
    asked: &Asked,
    frame: u32,
    fact: Fact,
) -> Result<(), Memory>
    requires run { IsToldRun run.now }
    requires asked { IsAsked (spans_of run.now.activations.now) asked.now }
    ensures { OnOk result (told.new ≡ told.old ++ amounts_text run.now.activations.now run.now.layout.now.input_len frame fact) }
{
    match fact {
        Fact::Trapped { .. } | Fact::OverBudget | Fact::Poisoned { .. } => Ok(()),
        Fact::Waits { stream, supply, .. } => add_waits_amounts(
            told, run, asked, frame, stream, supply,
        ),
    }
}
