ghost use Rattle.std.specs.Prelude.{◌≡◌, ◌≢◌, ◌<◌, ◌≤◌, ℕ, All, IfOk, IfSome, false, filter, if◌then◌else◌};
ghost use Rattle.std.specs.Prelude.{length, not, slice_index, slice_index_or, slice_set, true};
ghost use Rattle.stream_match.specs.EpochCode.{Ascend};
ghost use Rattle.stream_match_layouts.specs.Layout.{IsLayout};
ghost use Rattle.stream_match_layouts.specs.Spans.{frame_count};
ghost use Rattle.epoch_run_ready.specs.Waiting.{AreMarked, AreMissing};

use crate::missing::lower;
use crate::waiting::{read_behind, spans_wait};
use os_io::{List, Memory};
use std::alloc::Global;
use stream_match_layouts::Layout;

/// How many readers there are up to the last one that reads behind all that is written, by the positions there: with none nobody waits.
pub(crate) fn up_to_last_behind(layout: &Layout, missing: &[u64], readers: &[u32]) -> usize
    requires layout { IsLayout layout.now }
    requires readers { All (λ a. a < frame_count layout.now) readers.now }
    requires missing { length missing.now ≡ length layout.now.writers }
    ensures { result ≤ length readers.now }
{
    if none_behind(layout, missing, readers) {
        return 0;
    }
    let mut left = readers.len();
    'readers: while left > 0 {
        let spans = layout.spans_of(readers[left - 1] as usize);
        if read_behind(missing, spans) {
            return left;
        }
        left -= 1;
    }
    0
}

/// Whether none of some readers reads behind all that is written, where they follow on one another: so all their spans are looked at in
/// one go. Where others lie between them, it answers no.
fn none_behind(layout: &Layout, missing: &[u64], readers: &[u32]) -> bool
    requires layout { IsLayout layout.now }
    requires readers { All (λ a. a < frame_count layout.now) readers.now }
    requires missing { length missing.now ≡ length layout.now.writers }
{
    match spans_between(layout, readers) {
        Some((first, end)) => !read_behind(missing, &layout.spans.as_slice()[first..end]),
        None => false,
    }
}

/// The numbers of the first span of some readers and of the one behind the last, where the readers follow on one another.
fn spans_between(layout: &Layout, readers: &[u32]) -> Option<(usize, usize)>
    requires { All (λ a. a < frame_count layout.now) readers.now }
    ensures ordered { IfSome result (λ numbers. numbers.0 ≤ numbers.1) }
    ensures within { IfSome result (λ numbers. numbers.1 ≤ length layout.now.spans) }
{
    let count = readers.len();
    if count == 0 {
        return None;
    }
    let first = readers[0] as usize;
    let last = readers[count - 1] as usize;
    if last != first + (count - 1) {
        return None;
    }
    let starts = layout.starts.as_slice();
    between(
        starts[first] as usize,
        starts[last + 1] as usize,
        layout.spans.len(),
    )
}

/// Two numbers, where they are in order and none is above `count`.
fn between(first: usize, end: usize, count: usize) -> Option<(usize, usize)>
    ensures ordered { IfSome result (λ numbers. numbers.0 ≤ numbers.1) }
    ensures within { IfSome result (λ numbers. numbers.1 ≤ count) }
{
    if first <= end && end <= count {
        Some((first, end))
    } else {
        None
    }
}

/// Marks those of the first `count` readers that wait, the last one first: so a mark goes from each to those before it that wait for it.
pub(crate) fn mark_back(
    layout: &Layout,
    waits: &mut [bool],
    missing: &mut [u64],
    readers: &[u32],
    count: usize,
)
    requires layout { IsLayout layout.now }
    requires readers { All (λ a. a < frame_count layout.now) readers.now }
    requires count { count ≤ length readers.now }
    requires one_each { length waits.old ≡ frame_count layout.now }
    requires missing { AreMissing layout.now waits.old missing.old }
    ensures marked { AreMarked layout.now readers.now waits.old waits.new }
    ensures missing { AreMissing layout.now waits.new missing.new }
{
    let mut left = count;
    'marking: while left > 0 {
        left -= 1;
        let _ = gets_mark(layout, waits, missing, readers, left);
    }
}

/// The readers that have no mark and don't wait, in their order. Those that wait get a mark, the first one first: so it goes from each
/// to those behind it that wait for it, too.
pub(crate) fn others(
    alloc: Global,
    layout: &Layout,
    waits: &mut [bool],
    missing: &mut [u64],
    readers: &[u32],
) -> Result<List<u32>, Memory>
    requires layout { IsLayout layout.now }
    requires readers { All (λ a. a < frame_count layout.now) readers.now }
    requires one_each { length waits.old ≡ frame_count layout.now }
    requires missing { AreMissing layout.now waits.old missing.old }
    ensures marked { AreMarked layout.now readers.now waits.old waits.new }
    ensures others { IfOk result (λ others. Ascend readers.now → others ≡ filter (λ a. not (slice_index_or waits.new a false)) readers.now) }
{
    let mut others = List::new(alloc);
    for number in 0..readers.len() {
        if !gets_mark(layout, waits, missing, readers, number) {
            others.push(readers[number])?;
        }
    }
    Ok(others)
}

/// Marks the reader of a number, if it waits and has no mark yet. It answers whether the reader has a mark then.
fn gets_mark(
    layout: &Layout,
    waits: &mut [bool],
    missing: &mut [u64],
    readers: &[u32],
    number: usize,
) -> bool
    requires layout { IsLayout layout.now }
    requires readers { All (λ a. a < frame_count layout.now) readers.now }
    requires exists { number < length readers.now }
    requires one_each { length waits.old ≡ frame_count layout.now }
    requires missing { AreMissing layout.now waits.old missing.old }
    ensures marked { AreMarked layout.now readers.now waits.old waits.new }
    ensures missing { AreMissing layout.now waits.new missing.new }
    ensures told { result ≡ slice_index_or waits.new (slice_index readers.now number) false }
    ensures others { (a : ℕ) → a ≢ slice_index readers.now number → slice_index_or waits.new a false ≡ slice_index_or waits.old a false }
{
    if is_marked(waits, readers[number]) {
        return true;
    }
    mark(layout, waits, missing, readers, number)
}

/// Marks the reader of a number, if it waits, which it answers. What it writes can't come then.
#[inline(always)]
fn mark(
    layout: &Layout,
    waits: &mut [bool],
    missing: &mut [u64],
    readers: &[u32],
    number: usize,
) -> bool
    requires layout { IsLayout layout.now }
    requires readers { All (λ a. a < frame_count layout.now) readers.now }
    requires exists { number < length readers.now }
    requires one_each { length waits.old ≡ frame_count layout.now }
    requires missing { AreMissing layout.now waits.old missing.old }
    ensures marked { AreMarked layout.now readers.now waits.old waits.new }
    ensures missing { AreMissing layout.now waits.new missing.new }
    ensures marks { waits.new ≡ (if result then slice_set waits.old (slice_index readers.now number) true else waits.old) }
{
    let activation = readers[number] as usize;
    let spans = layout.spans_of(activation);
    if spans_wait(layout, waits, missing, spans) {
        waits[activation] = true;
        lower(missing, spans);
        return true;
    }
    false
}

/// Whether an activation has a mark.
pub(crate) fn is_marked(waits: &[bool], activation: u32) -> bool
    ensures { result ≡ slice_index_or waits.now activation false }
{
    match waits.get(activation as usize) {
        Some(mark) => *mark,
        None => false,
    }
}
