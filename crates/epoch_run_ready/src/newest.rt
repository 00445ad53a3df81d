ghost use Rattle.std.specs.Prelude.{◌≡◌, ◌<◌, ◌≤◌, ℕ, All, List, Option, IfOk, false, length, true};
ghost use Rattle.flow_core_laws.specs.declared.activation.Activation.{Activation};
ghost use Rattle.flow_core_laws.specs.declared.task_end.TaskEnd.{TaskEnd};
ghost use Rattle.stream_match_layouts.specs.Layout.{IsLayout, IsLayoutOf};
ghost use Rattle.flow_core_epochs.specs.Epoch.{open_in};
ghost use Rattle.stream_match_layouts.specs.Spans.{frame_count, spans_of};
ghost use Rattle.epoch_run_ready.specs.Newest.{WaitFrom, marked_from};
ghost use Rattle.epoch_run_ready.specs.Waiting.{AreMissing, HasWaitingSpan};

use crate::circles::wait_around;
use crate::missing::behind_all;
use crate::waiting::{reads_unwritten, waits_or_lowers};
use os_io::Memory;
use std::alloc::Global;
use stream_match_layouts::Layout;

/// Whether all activations from a number on wait, where none of them has an end, and the readers are all that have none: each reads an element that
/// nobody writes yet, or that one of them writes, also in a circle, or one of the last readers before them. So an epoch that was found to leave nothing
/// to run needs no second look at those before, which wait as they did. It may say no where all wait: what waits for other earlier ones isn't found.
pub fn newest_wait(
    alloc: Global,
    layout: &Layout,
    readers: &[u32],
    first: usize,
) -> Result<bool, Memory>
    requires layout { IsLayout layout.now }
    ensures { IfOk result (λ wait. wait ≡ true → (activations : List Activation) (input : List ℕ) (ends : List (Option TaskEnd))
        → IsLayoutOf layout.now activations → length input ≡ layout.now.input_len → length ends ≡ first
        → readers.now ≡ open_in ends (frame_count layout.now) → WaitFrom activations input ends first) }
{
    let behind = wait_behind(alloc, layout, first)?;
    if behind {
        return Ok(true);
    }
    let around = wait_around(alloc, layout, readers, first)?;
    Ok(around)
}

/// Whether all activations from a number on wait for an element that nobody writes, or that one of them writes. The last one is looked at first: it has
/// to read behind all that is written. The first one that isn't found to wait is the last that is looked at.
fn wait_behind(alloc: Global, layout: &Layout, first: usize) -> Result<bool, Memory>
    requires layout { IsLayout layout.now }
    ensures { IfOk result (λ wait. wait ≡ true → (a : ℕ) → first ≤ a → a < frame_count layout.now
        → HasWaitingSpan layout.now (marked_from first (frame_count layout.now)) (spans_of layout.now a)) }
{
    if !last_reads_unwritten(layout) {
        return Ok(false);
    }
    let mut missing = behind_all(alloc, layout)?;
    let wait = wait_from(layout, missing.as_mut_slice(), first);
    Ok(wait)
}

/// Whether the last activation reads behind all that is written.
fn last_reads_unwritten(layout: &Layout) -> bool
    requires { IsLayout layout.now }
{
    let count = layout.frames();
    if count == 0 {
        return false;
    }
    reads_unwritten(layout, layout.spans_of(count - 1))
}

/// Whether all activations from a number on wait for an element that nobody writes, or one of them, by the first such position of
/// each stream that is known.
fn wait_from(layout: &Layout, missing: &mut [u64], first: usize) -> bool
    requires layout { IsLayout layout.now }
    requires missing { AreMissing layout.now (marked_from first (frame_count layout.now)) missing.old }
    ensures { result ≡ true → (a : ℕ) → first ≤ a → a < frame_count layout.now
        → HasWaitingSpan layout.now (marked_from first (frame_count layout.now)) (spans_of layout.now a) }
{
    let mut left = layout.frames();
    'looking: while left > first {
        left -= 1;
        if !waits_at(layout, missing, left, first) {
            return false;
        }
    }
    true
}

/// Whether an activation waits for such an element. What it writes can't come either way, as long as all from the first one on wait.
#[inline(always)]
fn waits_at(layout: &Layout, missing: &mut [u64], activation: usize, first: usize) -> bool
    requires layout { IsLayout layout.now }
    requires exists { activation < frame_count layout.now }
    requires is_new { first ≤ activation }
    requires missing { AreMissing layout.now (marked_from first (frame_count layout.now)) missing.old }
    ensures waits { result ≡ true → HasWaitingSpan layout.now (marked_from first (frame_count layout.now)) (spans_of layout.now activation) }
    ensures missing { AreMissing layout.now (marked_from first (frame_count layout.now)) missing.new }
{
    let spans = layout.spans_of(activation);
    let mut waits = false;
    for span in spans {
        if waits_or_lowers(missing, *span) {
            waits = true;
        }
    }
    waits
}
