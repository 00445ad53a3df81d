ghost use Rattle.std.specs.Prelude.{◌≡◌, ◌<◌, ◌≤◌, ℕ, All, Bool, List, Option, IfOk, false, length, replicate};
ghost use Rattle.flow_core_laws.specs.declared.task_end.TaskEnd.{TaskEnd};
ghost use Rattle.flow_core_laws.specs.declared.activation.Activation.{Activation};
ghost use Rattle.flow_core_epochs.specs.Epoch.{LeaveOutWaiting, open_in};
ghost use Rattle.stream_match_layouts.specs.Layout.{IsLayout, IsLayoutOf};
ghost use Rattle.stream_match_layouts.specs.Spans.{frame_count};
ghost use Rattle.epoch_run_ready.specs.Newest.{WaitBefore};
ghost use Rattle.epoch_run_ready.specs.Unreached.{AreUnreached};
ghost use Rattle.epoch_run_ready.specs.Waiting.{AreMissing, AreUnmarked};

use crate::marking::{mark_back, others, up_to_last_behind};
use crate::missing::behind_all;
use crate::unreached::unreached;
use os_io::{List, Memory};
use std::alloc::Global;
use stream_match_layouts::Layout;

/// The activations that an epoch runs, where those before a number waited before this epoch: of the readers, which are all that have no end yet,
/// those that don't wait, as `ready_frames` finds them, without those before the number that nothing new is found to reach. So activations that
/// wait for one another are left out once the last of them has come, unless a new one writes what one of them reads.
pub fn ready_since(
    alloc: Global,
    layout: &Layout,
    readers: &[u32],
    first: usize,
) -> Result<List<u32>, Memory>
    requires layout { IsLayout layout.now }
    requires readers { All (λ a. a < frame_count layout.now) readers.now }
    ensures { IfOk result (λ frames. (activations : List Activation) (input : List ℕ) (ends : List (Option TaskEnd)) → IsLayoutOf layout.now activations
        → length input ≡ layout.now.input_len → readers.now ≡ open_in ends (frame_count layout.now) → length ends ≡ first
        → WaitBefore activations input ends first → LeaveOutWaiting activations input ends frames) }
{
    match unreached(alloc, layout, readers, first)? {
        Some(waits) if has_mark(waits.as_slice()) => {
            let frames = others_than(alloc, layout, readers, waits)?;
            Ok(frames)
        }
        _ => ready_frames(alloc, layout, readers),
    }
}

/// The activations that an epoch runs: of the readers, which are all that have no end yet, those that don't wait for an element
/// that can't come in it. What waits for a later one or for an earlier one is found, and not each of those that wait for one
/// another in turn: what isn't found is left in.
pub fn ready_frames(alloc: Global, layout: &Layout, readers: &[u32]) -> Result<List<u32>, Memory>
    requires layout { IsLayout layout.now }
    requires readers { All (λ a. a < frame_count layout.now) readers.now }
    ensures { IfOk result (λ frames. (activations : List Activation) (input : List ℕ) (ends : List (Option TaskEnd)) → IsLayoutOf layout.now activations
        → length input ≡ layout.now.input_len → readers.now ≡ open_in ends (frame_count layout.now) → LeaveOutWaiting activations input ends frames) }
{
    let frames = chosen(alloc, layout, readers)?;
    Ok(frames)
}

/// The readers that don't wait, by marks of those that do. All of them are answered without a second look where none reads behind all that
/// is written.
fn chosen(alloc: Global, layout: &Layout, readers: &[u32]) -> Result<List<u32>, Memory>
    requires layout { IsLayout layout.now }
    requires readers { All (λ a. a < frame_count layout.now) readers.now }
    ensures { IfOk result (λ frames. AreUnmarked layout.now readers.now (replicate (frame_count layout.now) false) frames) }
{
    let mut missing = behind_all(alloc, layout)?;
    let count = up_to_last_behind(layout, missing.as_slice(), readers);
    if count == 0 {
        let frames = List::from_slice(alloc, readers)?;
        return Ok(frames);
    }
    let mut waits = Vec::new(alloc);
    waits.resize(layout.frames(), false)?;
    let frames = unmarked(
        alloc,
        layout,
        readers,
        waits.as_mut_slice(),
        missing.as_mut_slice(),
        count,
    )?;
    Ok(frames)
}

/// The readers that have no mark and don't wait.
fn others_than(
    alloc: Global,
    layout: &Layout,
    readers: &[u32],
    waits: Vec<bool>,
) -> Result<List<u32>, Memory>
    requires layout { IsLayout layout.now }
    requires readers { All (λ a. a < frame_count layout.now) readers.now }
    requires one_each { length waits.items ≡ frame_count layout.now }
    ensures { IfOk result (λ frames. AreUnmarked layout.now readers.now waits.items frames) }
{
    let mut waits = waits;
    let mut missing = behind_all(alloc, layout)?;
    let frames = unmarked(
        alloc,
        layout,
        readers,
        waits.as_mut_slice(),
        missing.as_mut_slice(),
        readers.len(),
    )?;
    Ok(frames)
}

/// The readers that have no mark and don't wait. `missing` has for each stream a position whose element can't come; who reads such an
/// element is among the first `count` readers.
fn unmarked(
    alloc: Global,
    layout: &Layout,
    readers: &[u32],
    waits: &mut [bool],
    missing: &mut [u64],
    count: usize,
) -> Result<List<u32>, Memory>
    requires layout { IsLayout layout.now }
    requires readers { All (λ a. a < frame_count layout.now) readers.now }
    requires count { count ≤ length readers.now }
    requires one_each { length waits.old ≡ frame_count layout.now }
    requires missing { AreMissing layout.now waits.old missing.old }
    ensures { IfOk result (λ frames. AreUnmarked layout.now readers.now waits.old frames) }
{
    mark_back(layout, waits, missing, readers, count);
    let frames = others(alloc, layout, waits, missing, readers)?;
    Ok(frames)
}

/// Whether any activation is marked.
fn has_mark(waits: &[bool]) -> bool {
    for mark in waits {
        if *mark {
            return true;
        }
    }
    false
}
