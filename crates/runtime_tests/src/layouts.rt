//! Layouts and plans of activations, found by hand: positions, producers, cells and pieces.

mod limits;
mod windows;
mod worked;
mod writers;

ghost use Rattle.stream_match_layouts.specs.Layout.{IsLayout};

use crate::activations::{layout_of, plan_over};
use flow_core::{Claim, Elem, FramePlan, Piece, Plan};
use os_io::List;
use std::process::Abort;
use std::test::Fail;
use stream_match::{Layout, Span};

/// Activations over an input, with all that is to be found of them.
struct Case<'a> {
    input: &'a [u8],
    /// The claims of each activation.
    tasks: &'a [&'a [Claim]],
    spans: &'a [Span],
    starts: &'a [u32],
    /// One row for each stream.
    writers: &'a [&'a [u32]],
    reads: &'a [u64],
    writes: &'a [u64],
    /// The span that writes a position of a stream.
    producers: &'a [(u32, u64, Option<u32>)],
    frames: &'a [FramePlan],
    sink: FramePlan,
    pieces: &'a [Piece],
    /// The first cells, and how many empty ones come behind them.
    filled: &'a [Option<Elem>],
    empty: usize,
}

impl Case<'_> {
    /// Whether the layout of the case's activations, and the plan over it, are as the case says.
    fn holds(&self, rt: &(impl AllocGlobal + Abort)) -> Result<(), Fail> {
        let (streams, input_len) = (count_of(self.writers.len()), count_of(self.input.len()));
        let layout = layout_of(rt.alloc(), streams, input_len, self.tasks)?;
        self.has_layout(rt, &layout);
        has_producers(rt, &layout, self.producers);
        let plan = plan_over(rt.alloc(), &layout, self.input)?;
        self.has_plan(rt, &plan);
        Ok(())
    }

    fn has_layout(&self, rt: &impl Abort, layout: &Layout) {
        are_same(rt, layout.spans.as_slice(), self.spans);
        are_same(rt, layout.starts.as_slice(), self.starts);
        are_same(rt, layout.cursors.reads.as_slice(), self.reads);
        are_same(rt, layout.cursors.writes.as_slice(), self.writes);
        have_rows(rt, layout.writers.as_slice(), self.writers);
    }

    fn has_plan(&self, rt: &impl Abort, plan: &Plan) {
        are_same(rt, plan.frames.as_slice(), self.frames);
        are_same(rt, &[plan.sink], &[self.sink]);
        are_same(rt, plan.pieces.as_slice(), self.pieces);
        count_up(rt, plan.numbers.as_slice(), self.frames.len());
        are_cells(rt, plan.filled.as_slice(), self.filled, self.empty);
    }
}

/// How many there are, up to the most that an input has.
fn count_of(items: usize) -> u32 {
    items.min(4_194_304) as u32
}

fn are_same<T: PartialEq>(rt: &impl Abort, found: &[T], wanted: &[T]) {
    assert!(rt; found == wanted);
}

/// Whether lists have these items.
fn have_rows(rt: &impl Abort, found: &[List<u32>], wanted: &[&[u32]]) {
    assert!(rt; found.len() == wanted.len());
    for (found, wanted) in found.iter().zip(wanted) {
        assert!(rt; found.as_slice() == *wanted);
    }
}

/// Whether these spans write these positions.
fn has_producers(rt: &impl Abort, layout: &Layout, producers: &[(u32, u64, Option<u32>)])
    requires { IsLayout layout.now }
{
    for (stream, position, producer) in producers {
        assert!(rt; (*stream as usize) < layout.writers.len());
        assert!(rt; layout.producer(*stream, *position) == *producer);
    }
}

/// Whether these are the numbers from 0 on.
fn count_up(rt: &impl Abort, numbers: &[u32], count: usize) {
    assert!(rt; numbers.len() == count);
    for (place, number) in numbers.iter().enumerate() {
        assert!(rt; *number as usize == place);
    }
}

/// Whether the first cells are those of `first`, and behind them come `empty` empty ones.
fn are_cells(rt: &impl Abort, found: &[Option<Elem>], first: &[Option<Elem>], empty: usize) {
    assert!(rt; first.len() <= found.len());
    let (front, behind) = found.split_at(first.len());
    assert!(rt; front == first);
    assert!(rt; behind.len() == empty);
    for cell in behind {
        assert!(rt; cell.is_none());
    }
}

/// Whether all is found of each of these cases.
fn all_hold(rt: &(impl AllocGlobal + Abort), cases: &[Case<'_>]) -> Result<(), Fail> {
    for case in cases {
        case.holds(rt)?;
    }
    Ok(())
}
