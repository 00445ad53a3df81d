ghost use Rattle.std.specs.Prelude.{◌≡◌, ◌+◌, ◌-◌, ◌++◌, [], ◌∷◌, ◌^◌, ◌<◌, All, IfOk, OnOk, true, length, map, sum_by};
ghost use Rattle.std.specs.List.{flat_map, range_with_len};
ghost use Rattle.stream_match_layouts.specs.declared.span.Span.{Span};
ghost use Rattle.stream_match.specs.declared.stretch.Stretch.{Stretch};
ghost use Rattle.stream_match_layouts.specs.Layout.{IsLayout};
ghost use Rattle.stream_match.specs.Weave.{total};
ghost use Rattle.stream_match.specs.EpochPlan.{AscendInLayout, read_reach, leaves_from, staying, leaving_reach, leaving_reaches};
ghost use Rattle.stream_match.specs.EpochCode.{pieces_for, left_piece, left_pieces, stretches_from, with_positions, reads_before, read_part};

use crate::pieces::reads;
use crate::stretch::Stretch;
use flow_core_laws::Piece;
use os_io::{List, Memory};
use std::alloc::Global;
use stream_match_layouts::{Layout, Span};

/// Stretches behind one another, each with a position at least, and the cell behind the last one.
#[derive(Drop)]
pub(crate) struct Reaching {
    pub(crate) stretches: List<Stretch>,
    pub(crate) next: u32,
}

/// What leaves frames: stretches behind one another, each with a position at least, the pieces into them from the frames, in order,
/// and the cell behind the last one.
#[derive(Drop)]
pub(crate) struct Left {
    pub(crate) stretches: List<Stretch>,
    pub(crate) pieces: List<Piece>,
    pub(crate) next: u32,
}

/// What frames read, frame by frame.
pub(crate) fn reading(alloc: Global, layout: &Layout, frames: &[u32]) -> Result<Reaching, Memory>
    requires layout { IsLayout layout.now }
    requires frames { AscendInLayout layout.now frames.now }
    ensures stretches { IfOk result (λ r. r.stretches ≡ with_positions (flat_map (read_part layout.now frames.now) (range_with_len 0 (length frames.now)))) }
    ensures next { IfOk result (λ r. r.next ≡ reads_before layout.now frames.now (length frames.now)) }
{
    let mut reading = Reaching {
        stretches: List::with_capacity(alloc, frames.len())?,
        next: 0,
    };
    for (number, frame) in frames.iter().enumerate() {
        reading.add_reads(layout.spans_of(*frame as usize), number as u32)?;
    }
    Ok(reading)
}

/// What leaves frames, from a cell on.
pub(crate) fn leaving(
    alloc: Global,
    layout: &Layout,
    frames: &[u32],
    cursors: &[u64],
    next: u32,
) -> Result<Left, Memory>
    requires layout { IsLayout layout.now }
    requires frames { AscendInLayout layout.now frames.now }
    requires cursors { length cursors.now ≡ length layout.now.writers }
    requires small { All (λ cursor. cursor < 2 ^ 62) cursors.now }
    requires next { next ≡ reads_before layout.now frames.now (length frames.now) }
    ensures stretches { IfOk result (λ r. r.stretches ≡ with_positions (stretches_from (length frames.now) next
        (leaving_reaches layout.now frames.now cursors.now))) }
    ensures pieces { IfOk result (λ r. r.pieces ≡ flat_map (pieces_for layout.now frames.now) r.stretches) }
    ensures next { IfOk result (λ r. r.next ≡ next + total (leaving_reaches layout.now frames.now cursors.now)) }
{
    let mut leaving = Left {
        stretches: List::with_capacity(alloc, frames.len())?,
        pieces: List::with_capacity(alloc, frames.len())?,
        next,
    };
    for (number, frame) in frames.iter().enumerate() {
        leaving.add_leaving(
            layout.spans_of(*frame as usize),
            cursors,
            number as u32,
            frames.len() as u32,
        )?;
    }
    Ok(leaving)
}

impl Reaching {
    /// Adds what spans read.
    fn add_reads(&mut self, spans: &[Span], to: u32) -> Result<(), Memory>
        requires { self.old.next + sum_by (λ (s : Span). s.count) spans.now < 2 ^ 32 }
        ensures stretches { OnOk result (self.new.stretches ≡ self.old.stretches
            ++ with_positions (stretches_from to self.old.next (map read_reach spans.now))) }
        ensures next { OnOk result (self.new.next ≡ self.old.next + total (map read_reach spans.now)) }
    {
        for span in spans {
            self.add(to, span.stream, span.first, reads(*span))?;
        }
        Ok(())
    }

    /// Adds a stretch, if it has a position.
    pub(crate) fn add(&mut self, to: u32, stream: u32, first: u64, count: u32) -> Result<(), Memory>
        requires { self.old.next + count < 2 ^ 32 }
        ensures stretches { OnOk result (self.new.stretches ≡ self.old.stretches
            ++ with_positions (record { to = to; stream = stream; first = first; count = count; at = self.old.next } ∷ [])) }
        ensures next { OnOk result (self.new.next ≡ self.old.next + count) }
    {
        if count == 0 {
            return Ok(());
        }
        self.stretches.push(Stretch {
            to,
            stream,
            first,
            count,
            at: self.next,
        })?;
        self.next += count;
        Ok(())
    }
}

impl Left {
    /// Adds what spans of the frame of a number write that leaves.
    fn add_leaving(
        &mut self,
        spans: &[Span],
        cursors: &[u64],
        from: u32,
        to: u32,
    ) -> Result<(), Memory>
        requires room { self.old.next + sum_by (λ (s : Span). s.count) spans.now < 2 ^ 32 }
        requires exist { All (λ (s : Span). s.stream < length cursors.now) spans.now }
        requires small { All (λ (s : Span). s.first + staying cursors.now s < 2 ^ 63) spans.now }
        requires offsets { All (λ (s : Span). s.write ≡ true → s.offset + s.count < 2 ^ 32) spans.now }
        ensures stretches { OnOk result (self.new.stretches ≡ self.old.stretches
            ++ with_positions (stretches_from to self.old.next (map (leaving_reach cursors.now) spans.now))) }
        ensures pieces { OnOk result (self.new.pieces ≡ self.old.pieces ++ left_pieces cursors.now from to self.old.next spans.now) }
        ensures next { OnOk result (self.new.next ≡ self.old.next + total (map (leaving_reach cursors.now) spans.now)) }
    {
        for span in spans {
            self.add_left(*span, cursors, from, to)?;
        }
        Ok(())
    }

    /// Adds those elements that a span of frame `from` writes and that leave the epoch.
    fn add_left(&mut self, span: Span, cursors: &[u64], from: u32, to: u32) -> Result<(), Memory>
        requires room { self.old.next + span.count < 2 ^ 32 }
        requires exists { span.stream < length cursors.now }
        requires small { span.first + staying cursors.now span < 2 ^ 63 }
        requires offset { span.write ≡ true → span.offset + span.count < 2 ^ 32 }
        ensures stretches { OnOk result (self.new.stretches ≡ self.old.stretches
            ++ with_positions (stretches_from to self.old.next (leaving_reach cursors.now span ∷ []))) }
        ensures pieces { OnOk result (self.new.pieces ≡ self.old.pieces ++ left_piece cursors.now from to self.old.next span) }
        ensures next { OnOk result (self.new.next ≡ self.old.next + (leaving_reach cursors.now span).count) }
    {
        if !span.write {
            return Ok(());
        }
        let staying = staying(span, cursors);
        if staying >= u64::from(span.count) {
            return Ok(());
        }
        self.add(span, staying as u32, from, to)?;
        Ok(())
    }

    /// Adds what a span of the frame of a number writes behind those of its positions that stay.
    fn add(&mut self, span: Span, staying: u32, from: u32, to: u32) -> Result<(), Memory>
        requires some { staying < span.count }
        requires room { self.old.next + span.count < 2 ^ 32 }
        requires small { span.first + staying < 2 ^ 63 }
        requires offset { span.offset + span.count < 2 ^ 32 }
        ensures stretches { OnOk result (self.new.stretches ≡ self.old.stretches
            ++ record { to = to; stream = span.stream; first = span.first + staying; count = span.count - staying; at = self.old.next } ∷ []) }
        ensures pieces { OnOk result (self.new.pieces ≡ self.old.pieces
            ++ record { from = from; to = to; first = span.offset + staying; count = span.count - staying; at = self.old.next } ∷ []) }
        ensures next { OnOk result (self.new.next ≡ self.old.next + (span.count - staying)) }
    {
        let count = span.count - staying;
        self.pieces.push(Piece {
            from,
            to,
            first: span.offset + staying,
            count,
            at: self.next,
        })?;
        self.stretches.push(Stretch {
            to,
            stream: span.stream,
            first: span.first + u64::from(staying),
            count,
            at: self.next,
        })?;
        self.next += count;
        Ok(())
    }
}

/// How many positions of a span lie before the first one that leaves.
fn staying(span: Span, cursors: &[u64]) -> u64
    requires { span.stream < length cursors.now }
    ensures { result ≡ staying cursors.now span }
{
    leaves_from(cursors, span.stream).saturating_sub(span.first)
}

/// The first position of a stream whose element leaves the epoch.
fn leaves_from(cursors: &[u64], stream: u32) -> u64
    requires { stream < length cursors.now }
    ensures { result ≡ leaves_from cursors.now stream }
{
    if stream == 1 {
        0
    } else {
        cursors[stream as usize]
    }
}
