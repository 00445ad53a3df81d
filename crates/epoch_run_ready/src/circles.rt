//! Whether all new activations wait, also for one another in a circle.
//!
//! Each has to read an element that can't come where none of them runs: one that nobody writes yet, or that one of them writes, or one of the last
//! activations before them, as long as these have no end. Which of them it is that waits first isn't asked: where each does, none can begin.

ghost use Rattle.std.specs.Prelude.{◌≡◌, ◌<◌, ◌≤◌, ℕ, IfOk, Some, false, slice_get, true};
ghost use Rattle.stream_match_layouts.specs.Layout.{IsLayout};
ghost use Rattle.stream_match_layouts.specs.Spans.{frame_count, spans_of};
ghost use Rattle.epoch_run_ready.specs.Newest.{marked_from};
ghost use Rattle.epoch_run_ready.specs.Waiting.{AreMissing, HasWaitingSpan, WaitAround};

use crate::missing::{behind_all, lower};
use crate::waiting::{reads_stream, spans_wait};
use os_io::Memory;
use std::alloc::Global;
use stream_match_layouts::Layout;

/// How many activations before the new ones are looked at with them at most: a circle may have begun in an earlier epoch.
const BEFORE: usize = 64;

/// Whether all activations from a number on wait, by what they and the last readers before them write.
pub(crate) fn wait_around(
    alloc: Global,
    layout: &Layout,
    readers: &[u32],
    first: usize,
) -> Result<bool, Memory>
    requires { IsLayout layout.now }
    ensures { IfOk result (λ wait. wait ≡ true → WaitAround layout.now readers.now first) }
{
    let count = layout.frames();
    if first >= count
        || !reads_stream(layout.spans_of(first))
        || !reads_stream(layout.spans_of(count - 1))
    {
        return Ok(false);
    }
    let from = readers_before(readers, count - first, first);
    let waits = marks_from(alloc, from, count)?;
    let mut missing = behind_all(alloc, layout)?;
    lower_from(layout, missing.as_mut_slice(), from);
    let wait = each_waits(layout, waits.as_slice(), missing.as_slice(), first);
    Ok(wait)
}

/// The number from which on all activations before `first` are readers; of the readers `new` come from `first` on. It is looked for a little way back.
fn readers_before(readers: &[u32], new: usize, first: usize) -> usize
    ensures few { result ≤ first }
    ensures open { (b : ℕ) → result ≤ b → b < first → (f : ℕ) × (slice_get readers.now f ≡ Some b) }
{
    let mut from = first;
    let mut left = readers.len().saturating_sub(new);
    'back: while left > 0 && first - from < BEFORE {
        left -= 1;
        if readers[left] as usize + 1 != from {
            break 'back;
        }
        from -= 1;
    }
    from
}

/// Marks of the activations from a number on.
fn marks_from(alloc: Global, from: usize, count: usize) -> Result<Vec<bool>, Memory>
    requires { from ≤ count }
    ensures { IfOk result (λ waits. waits.items ≡ marked_from from count) }
{
    let mut waits = Vec::new(alloc);
    waits.resize(from, false)?;
    waits.resize(count, true)?;
    Ok(waits)
}

/// Lowers the positions of streams to where the activations from a number on write.
fn lower_from(layout: &Layout, missing: &mut [u64], from: usize)
    requires layout { IsLayout layout.now }
    requires missing { AreMissing layout.now (marked_from from (frame_count layout.now)) missing.old }
    ensures { AreMissing layout.now (marked_from from (frame_count layout.now)) missing.new }
{
    for activation in from..layout.frames() {
        lower(missing, layout.spans_of(activation));
    }
}

/// Whether each activation from a number on reads an element that can't come, by marks of those that wait. It stops at
/// the first one that isn't found to.
fn each_waits(layout: &Layout, waits: &[bool], missing: &[u64], first: usize) -> bool
    requires layout { IsLayout layout.now }
    requires missing { AreMissing layout.now waits.now missing.now }
    ensures { result ≡ true → (a : ℕ) → first ≤ a → a < frame_count layout.now → HasWaitingSpan layout.now waits.now (spans_of layout.now a) }
{
    for activation in first..layout.frames() {
        if !spans_wait(layout, waits, missing, layout.spans_of(activation)) {
            return false;
        }
    }
    true
}
