//! Which activations of earlier epochs nothing new can reach: so they wait as they did, whatever the new ones come to. Activations that
//! wait for one another in a circle are found so, too.
//!
//! Of each stream a position is taken behind which something may still come: the new ones write from there on, and those that read behind
//! such a position themselves. A reader of an earlier epoch that ends before these positions with all that it reads isn't reached.

ghost use Rattle.std.specs.Prelude.{◌≡◌, ◌+◌, ◌<◌, ℕ, All, IfOk, IfSome, length, true};
ghost use Rattle.stream_match_layouts.specs.Layout.{IsLayout};
ghost use Rattle.stream_match_layouts.specs.Spans.{frame_count};
ghost use Rattle.epoch_run_ready.specs.Unreached.{AreJudged, AreUnreached};

use crate::missing::lower;
use crate::waiting::{read_behind, write_before};
use os_io::Memory;
use std::alloc::Global;
use stream_match_layouts::Layout;

/// How often the readers are gone over. One that is looked at before another which reaches it is found the next time; where so often isn't
/// enough, none counts as unreached.
const PASSES: usize = 4;

/// Marks of those readers before a number that nothing from the number on reaches, where there are some.
pub(crate) fn unreached(
    alloc: Global,
    layout: &Layout,
    readers: &[u32],
    first: usize,
) -> Result<Option<Vec<bool>>, Memory>
    requires layout { IsLayout layout.now }
    requires readers { All (λ a. a < frame_count layout.now) readers.now }
    ensures { IfOk result (λ marks. IfSome marks (λ waits. AreUnreached layout.now readers.now first waits.items)) }
{
    if !has_old(readers, first) {
        return Ok(None);
    }
    let mut low = Vec::new(alloc);
    low.resize(layout.writers.len(), u64::MAX)?;
    lower_new(layout, first, low.as_mut_slice());
    for _ in 0..PASSES {
        if let Some(waits) = marks(alloc, layout, readers, first, low.as_slice())? {
            return Ok(Some(waits));
        }
        if !reach(layout, readers, first, low.as_mut_slice()) {
            return Ok(None);
        }
    }
    Ok(None)
}

/// Whether some of ascending readers are before a number.
fn has_old(readers: &[u32], first: usize) -> bool {
    match readers.first() {
        Some(reader) => (*reader as usize) < first,
        None => false,
    }
}

/// Lowers the positions of streams to where the activations from a number on write.
fn lower_new(layout: &Layout, first: usize, low: &mut [u64])
    requires layout { IsLayout layout.now }
    requires low { length low.old ≡ length layout.now.writers }
    ensures { length low.new ≡ length low.old }
{
    for activation in first..layout.frames() {
        lower(low, layout.spans_of(activation));
    }
}

/// Lowers the positions of streams to where readers write that may run: those from a number on, and those that read behind the positions.
/// The last one is looked at first. It answers whether some readers aren't reached.
fn reach(layout: &Layout, readers: &[u32], first: usize, low: &mut [u64]) -> bool
    requires layout { IsLayout layout.now }
    requires readers { All (λ a. a < frame_count layout.now) readers.now }
    requires low { length low.old ≡ length layout.now.writers }
    ensures { length low.new ≡ length low.old }
{
    let mut unreached = false;
    let mut left = readers.len();
    'reaching: while left > 0 {
        left -= 1;
        if !is_reached(layout, readers[left] as usize, first, low) {
            unreached = true;
        }
    }
    unreached
}

/// Whether an activation may run, as far as the positions tell. They are lowered to where it writes then.
#[inline(always)]
fn is_reached(layout: &Layout, activation: usize, first: usize, low: &mut [u64]) -> bool
    requires layout { IsLayout layout.now }
    requires exists { activation < frame_count layout.now }
    requires low { length low.old ≡ length layout.now.writers }
    ensures { length low.new ≡ length low.old }
{
    let spans = layout.spans_of(activation);
    if activation < first && !read_behind(low, spans) {
        return false;
    }
    lower(low, spans);
    true
}

/// Marks of those readers before a number that read nothing behind some positions; nothing where another reader writes before them.
fn marks(
    alloc: Global,
    layout: &Layout,
    readers: &[u32],
    first: usize,
    low: &[u64],
) -> Result<Option<Vec<bool>>, Memory>
    requires layout { IsLayout layout.now }
    requires readers { All (λ a. a < frame_count layout.now) readers.now }
    requires low { length low.now ≡ length layout.now.writers }
    ensures { IfOk result (λ marks. IfSome marks (λ waits. AreUnreached layout.now readers.now first waits.items)) }
{
    let mut waits = Vec::new(alloc);
    waits.resize(layout.frames(), false)?;
    if are_judged(layout, readers, first, low, waits.as_mut_slice()) {
        Ok(Some(waits))
    } else {
        Ok(None)
    }
}

/// Marks those readers before a number that read nothing behind some positions, the last one first. It answers whether no other reader
/// writes before these.
fn are_judged(
    layout: &Layout,
    readers: &[u32],
    first: usize,
    low: &[u64],
    waits: &mut [bool],
) -> bool
    requires layout { IsLayout layout.now }
    requires readers { All (λ a. a < frame_count layout.now) readers.now }
    requires low { length low.now ≡ length layout.now.writers }
    requires none { AreJudged layout.now readers.now first low.now waits.old (length readers.now) }
    ensures { result ≡ true → AreJudged layout.now readers.now first low.now waits.new 0 }
{
    let mut left = readers.len();
    'judging: while left > 0 {
        left -= 1;
        if !is_judged(layout, readers, first, low, waits, left) {
            return false;
        }
    }
    true
}

/// Marks the reader of a number, if it is before `first` and reads nothing behind some positions; else it answers whether the reader writes
/// nothing before them.
#[inline(always)]
fn is_judged(
    layout: &Layout,
    readers: &[u32],
    first: usize,
    low: &[u64],
    waits: &mut [bool],
    number: usize,
) -> bool
    requires layout { IsLayout layout.now }
    requires readers { All (λ a. a < frame_count layout.now) readers.now }
    requires low { length low.now ≡ length layout.now.writers }
    requires exists { number < length readers.now }
    requires so_far { AreJudged layout.now readers.now first low.now waits.old (number + 1) }
    ensures { result ≡ true → AreJudged layout.now readers.now first low.now waits.new number }
{
    let activation = readers[number] as usize;
    let spans = layout.spans_of(activation);
    if activation < first && !read_behind(low, spans) {
        waits[activation] = true;
        return true;
    }
    !write_before(low, spans)
}
