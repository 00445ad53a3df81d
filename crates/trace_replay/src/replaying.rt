ghost use Rattle.std.specs.Prelude.{◌≡◌, ◌≢◌, ◌+◌, ◌<◌, ◌≤◌, ◌^◌, ℕ, Some, All, IfOk, OnOk, IfSome, IfNone, length, slice_index};
ghost use Rattle.flow_core_laws.specs.Limits.{workers_limit};
ghost use Rattle.flow_core_laws.specs.IsSound.{IsSound};
ghost use Rattle.flow_core_laws.specs.Serves.{Serves};
ghost use Rattle.flow_core.specs.Waits.{OpensMore};
ghost use Rattle.trace_replay_laws.specs.Lists.{number_in, AreBelow};
ghost use Rattle.trace_replay_laws.specs.Answers.{AreFrames, IsAnswer};
ghost use Rattle.trace_replay.specs.Owners.{AreOwners};
ghost use Rattle.trace_replay.specs.Standing.{Stands, AreQueued, HeadWaits};

use crate::answering::{first_free, first_hole, first_left};
use crate::lists::{first_stranger, head};
use crate::owners::{Owners, owners_of};
use flow_core::{Board, Bodies, FrameBuffers, Plan, run_frame};
use os_io::{List, Memory};
use std::alloc::Global;
use trace_replay_laws::Replayed;

/// The head of a list, where it misses nothing.
fn ready_head(board: &Board, lists: &[List<u32>], list: usize, place: usize) -> Option<u32>
    requires exists { list < length lists.now }
    requires below { AreBelow (length board.now.waits.missing.items) lists.now }
    ensures some { IfSome result (λ frame. (number_in lists.now list place ≡ Some frame)
        × (slice_index board.now.waits.missing.items frame ≡ 0)) }
    ensures room { IfSome result (λ _. place + 1 < 2 ^ 64) }
    ensures none { IfNone result ((f : ℕ) → number_in lists.now list place ≡ Some f
        → slice_index board.now.waits.missing.items f ≢ 0) }
{
    let Some(frame) = head(lists, list, place) else {
        return None;
    };
    if board.waits.missing[frame as usize] != 0 {
        return None;
    }
    Some(frame)
}

/// Runs the heads of a list as long as one misses nothing.
fn run_list<B: Bodies>(
    board: &mut Board,
    plan: &Plan,
    bodies: &B,
    lists: &[List<u32>],
    places: &mut [usize],
    list: usize,
    buffers: &mut FrameBuffers,
    scratch: &mut B::Scratch,
) -> Result<(), Memory>
    requires sound { IsSound plan.now }
    requires served { Serves plan.now (B.outcome bodies.now) (B.takes bodies.now) }
    requires frames { AreFrames plan.now (B.outcome bodies.now) lists.now }
    requires exists { list < length lists.now }
    requires stands { Stands plan.now (B.outcome bodies.now) lists.now places.old board.old }
    requires fitting { B.fits bodies.now scratch.old }
    ensures stands { OnOk result (Stands plan.now (B.outcome bodies.now) lists.now places.new board.new) }
    ensures others { (k : ℕ) → k ≢ list → slice_index places.new k ≡ slice_index places.old k }
    ensures opens { OnOk result (OpensMore board.old.waits board.new.waits) }
    ensures waits { OnOk result (HeadWaits lists.now places.new board.new list) }
    ensures fits_again { OnOk result (B.fits bodies.now scratch.new) }
{
    while let Some(frame) = ready_head(board, lists, list, places[list]) {
        run_frame(board, plan, bodies, frame, buffers, scratch)?;
        places[list] += 1;
    }
    Ok(())
}

/// Goes on with the list of a frame that misses nothing, where there is one.
fn run_opened<B: Bodies>(
    board: &mut Board,
    plan: &Plan,
    bodies: &B,
    lists: &[List<u32>],
    owners: &[u32],
    places: &mut [usize],
    turn: usize,
    buffers: &mut FrameBuffers,
    scratch: &mut B::Scratch,
) -> Result<(), Memory>
    requires sound { IsSound plan.now }
    requires served { Serves plan.now (B.outcome bodies.now) (B.takes bodies.now) }
    requires frames { AreFrames plan.now (B.outcome bodies.now) lists.now }
    requires owners { AreOwners lists.now (length plan.now.frames) owners.now }
    requires opened { turn < length board.old.waits.opened.items }
    requires stands { Stands plan.now (B.outcome bodies.now) lists.now places.old board.old }
    requires queued { AreQueued lists.now places.old board.old turn }
    requires fitting { B.fits bodies.now scratch.old }
    ensures stands { OnOk result (Stands plan.now (B.outcome bodies.now) lists.now places.new board.new) }
    ensures queued { OnOk result (AreQueued lists.now places.new board.new (turn + 1)) }
    ensures opens { OnOk result (OpensMore board.old.waits board.new.waits) }
    ensures fits_again { OnOk result (B.fits bodies.now scratch.new) }
{
    let owner = owners[board.waits.opened[turn] as usize] as usize;
    if owner >= lists.len() {
        return Ok(());
    }
    run_list(board, plan, bodies, lists, places, owner, buffers, scratch)?;
    Ok(())
}

/// Runs heads of lists until none of them can run. A frame is looked at once it misses nothing.
fn run_heads<B: Bodies>(
    board: &mut Board,
    plan: &Plan,
    bodies: &B,
    lists: &[List<u32>],
    owners: &[u32],
    places: &mut [usize],
    buffers: &mut FrameBuffers,
    scratch: &mut B::Scratch,
) -> Result<(), Memory>
    requires sound { IsSound plan.now }
    requires served { Serves plan.now (B.outcome bodies.now) (B.takes bodies.now) }
    requires frames { AreFrames plan.now (B.outcome bodies.now) lists.now }
    requires owners { AreOwners lists.now (length plan.now.frames) owners.now }
    requires stands { Stands plan.now (B.outcome bodies.now) lists.now places.old board.old }
    requires queued { AreQueued lists.now places.old board.old 0 }
    requires fitting { B.fits bodies.now scratch.old }
    ensures stands { OnOk result (Stands plan.now (B.outcome bodies.now) lists.now places.new board.new) }
    ensures waits { OnOk result ((k : ℕ) → k < length lists.now → HeadWaits lists.now places.new board.new k) }
{
    let mut turn = 0;
    while turn < board.waits.opened.len() {
        run_opened(
            board, plan, bodies, lists, owners, places, turn, buffers, scratch,
        )?;
        turn += 1;
    }
    Ok(())
}

/// What is answered where heads were run until none can.
fn answer<B: Bodies>(
    alloc: Global,
    board: &Board,
    plan: &Plan,
    bodies: &B,
    lists: &[List<u32>],
    places: &[usize],
) -> Result<Replayed, Memory>
    requires sound { IsSound plan.now }
    requires lists { length lists.now ≤ workers_limit }
    requires frames { AreFrames plan.now (B.outcome bodies.now) lists.now }
    requires stands { Stands plan.now (B.outcome bodies.now) lists.now places.now board.now }
    requires waits { (k : ℕ) → k < length lists.now → HeadWaits lists.now places.now board.now k }
    ensures { IfOk result (IsAnswer plan.now (B.outcome bodies.now) lists.now) }
{
    if let Some((list, frame)) = first_left(lists, places) {
        let cell = first_hole(board, plan, frame);
        return Ok(Replayed::Stuck { list, frame, cell });
    }
    if let Some(frame) = first_free(board, plan) {
        return Ok(Replayed::Short { frame });
    }
    let ends = board.close(alloc, plan)?;
    Ok(Replayed::Whole(ends))
}

/// Replays lists of frames, of which each has one list at most.
fn replay_frames<B: Bodies>(
    alloc: Global,
    plan: &Plan,
    bodies: &B,
    lists: &[List<u32>],
    owners: &[u32],
) -> Result<Replayed, Memory>
    requires sound { IsSound plan.now }
    requires served { Serves plan.now (B.outcome bodies.now) (B.takes bodies.now) }
    requires lists { length lists.now ≤ workers_limit }
    requires frames { AreFrames plan.now (B.outcome bodies.now) lists.now }
    requires owners { AreOwners lists.now (length plan.now.frames) owners.now }
    ensures { IfOk result (IsAnswer plan.now (B.outcome bodies.now) lists.now) }
{
    let mut scratch = bodies.scratch(alloc)?;
    let mut buffers = FrameBuffers::new(alloc);
    let mut board = Board::open(alloc, plan)?;
    let mut places = Vec::new(alloc);
    places.resize(lists.len(), 0usize)?;
    run_heads(
        &mut board,
        plan,
        bodies,
        lists,
        owners,
        places.as_mut_slice(),
        &mut buffers,
        &mut scratch,
    )?;
    answer(alloc, &board, plan, bodies, lists, places.as_slice())
}

/// Replays the lists of frames that workers ran, 1 to 64 of them, over a plan. It takes time by the frames and pieces of the
/// plan and by the numbers of the lists.
pub fn replay<B: Bodies>(
    alloc: Global,
    plan: &Plan,
    bodies: &B,
    lists: &[List<u32>],
) -> Result<Replayed, Memory>
    requires sound { IsSound plan.now }
    requires served { Serves plan.now (B.outcome bodies.now) (B.takes bodies.now) }
    requires lists { (1 ≤ length lists.now) × (length lists.now ≤ workers_limit) }
    requires short { All (λ list. length list < 2 ^ 32) lists.now }
    ensures { IfOk result (IsAnswer plan.now (B.outcome bodies.now) lists.now) }
{
    if let Some((list, place)) = first_stranger(plan.frames.len(), lists) {
        return Ok(Replayed::Stranger { list, place });
    }
    match owners_of(alloc, plan.frames.len(), lists)? {
        Owners::Repeat(frame) => Ok(Replayed::Repeat { frame }),
        Owners::Of(owners) => replay_frames(alloc, plan, bodies, lists, owners.as_slice()),
    }
}
