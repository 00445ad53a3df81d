//! How a worker runs a frame that it claimed.
ghost use Rattle.std.specs.Prelude.{◌≡◌, ◌+◌, ◌<◌, ◌≤◌, ℕ, List, None, Some, length, slice_get, [], ◌∷◌, ◌++◌};
ghost use Rattle.flow_core_laws.specs.declared.outcome.Outcome.{Outcome};
ghost use Rattle.flow_core_laws.specs.declared.plan.Piece.{Piece};
ghost use Rattle.flow_core_laws.specs.declared.task_end.TaskEnd.TheVariants.{Done};
ghost use Rattle.flow_core_laws.specs.declared.elem.Elem.{Elem};
ghost use Rattle.flow_core_laws.specs.Outcome.{outcome_at};
ghost use Rattle.flow_core_laws.specs.Poisoning.{least_root, poisoning, values_of};
ghost use Rattle.flow_core_laws.specs.Plans.{frame_at, plan_meaning};
ghost use Rattle.flow_core_laws.specs.Serves.{Serves};
ghost use Rattle.flow_core_concurrent.specs.Steps.{first_place};
ghost use Rattle.frame_table.specs.Seats.{at, MayDeliver};
ghost use Rattle.frame_table.specs.Tokens.{IsSeatOf, view_of, known_of};
ghost use Rattle.steal_pool.specs.Hands.{pushed_by, asks_of, KeepsDeques};
ghost use Rattle.task_workers_worker.specs.Ready.{frames_of, HandServes};
ghost use Rattle.task_workers_worker.specs.Logs.{holds_up_to};
ghost use Rattle.task_workers_worker.specs.Turns.{Gave};

use crate::log::WorkLog;
use crate::windows::fill;
use flow_core_laws::{Bodies, TaskEnd};
use frame_table::{FrameSeat, FrameTable};
use steal_pool::Hand;
use task_workers_round::Gate;

// Delivers a piece of the running frame, and pushes the frame that it opens.
#[tactic(auto, using(crate::proofs::Deques::keeps_same))]
fn give_one(
    table: &FrameTable,
    seat: &mut FrameSeat,
    end: TaskEnd,
    outputs: &[i32],
    piece: u32,
    frame: u32,
    hand: &mut Hand,
)
    requires of_this_table { IsSeatOf table.now seat.old }
    requires may_deliver { (p : Piece) × (o : Outcome) × MayDeliver (known_of table.now) (view_of seat.old) piece p o × (o.end ≡ end)
        × (end ≡ Done → o.outputs ≡ outputs.now) }
    requires runs { (view_of seat.old).run ≡ Some (at frame piece 0) }
    requires serves { HandServes table.now seat.old hand.old }
    ensures of_this_table { IsSeatOf table.now seat.new }
    ensures runs { (view_of seat.new).run ≡ Some (at frame (piece + 1) 0) }
    ensures gave { Gave (frames_of table.now) (view_of seat.old) (view_of seat.new) (pushed_by hand.old) (pushed_by hand.new) }
    ensures serves { HandServes table.now seat.new hand.new }
    ensures asks { asks_of hand.new ≡ asks_of hand.old }
    ensures deques { KeepsDeques hand.old hand.new }
{
    let to = table.plan().pieces.as_slice()[piece as usize].to;
    if !table.deliver(seat, end, outputs, piece) {
        return;
    }
    if to as usize >= table.plan().frames.len() {
        return;
    }
    hand.push(to);
}

// Delivers all pieces of the running frame, which has this end.
#[tactic(auto, using(crate::proofs::Deques::keeps_same))]
fn give(
    table: &FrameTable,
    seat: &mut FrameSeat,
    end: TaskEnd,
    outputs: &[i32],
    frame: u32,
    hand: &mut Hand,
)
    requires of_this_table { IsSeatOf table.now seat.old }
    requires exists { frame < length table.now.plan.now.frames }
    requires meant { (o : Outcome) × (outcome_at (known_of table.now).meaning frame ≡ Some o) × (o.end ≡ end)
        × (end ≡ Done → o.outputs ≡ outputs.now) }
    requires runs { (view_of seat.old).run ≡ Some (first_place (known_of table.now).plan frame) }
    requires serves { HandServes table.now seat.old hand.old }
    ensures of_this_table { IsSeatOf table.now seat.new }
    ensures gave_all { (view_of seat.new).run ≡ Some (at frame ((frame_at (known_of table.now).plan frame).piece
        + (frame_at (known_of table.now).plan frame).pieces) 0) }
    ensures gave { Gave (frames_of table.now) (view_of seat.old) (view_of seat.new) (pushed_by hand.old) (pushed_by hand.new) }
    ensures serves { HandServes table.now seat.new hand.new }
    ensures asks { asks_of hand.new ≡ asks_of hand.old }
    ensures deques { KeepsDeques hand.old hand.new }
{
    let place = table.plan().frame(frame);
    for piece in place.piece..place.piece + place.pieces {
        give_one(table, seat, end, outputs, piece, frame, hand);
    }
}

// Ends the running frame behind all its pieces.
#[tactic(auto, using(crate::proofs::Deques::keeps_same))]
fn settle(
    table: &FrameTable,
    seat: &mut FrameSeat,
    outputs: &[i32],
    frame: u32,
    end: TaskEnd,
    hand: &mut Hand,
)
    requires of_this_table { IsSeatOf table.now seat.old }
    requires exists { frame < length table.now.plan.now.frames }
    requires meant { (o : Outcome) × (outcome_at (known_of table.now).meaning frame ≡ Some o) × (o.end ≡ end)
        × (end ≡ Done → o.outputs ≡ outputs.now) }
    requires runs { (view_of seat.old).run ≡ Some (first_place (known_of table.now).plan frame) }
    requires serves { HandServes table.now seat.old hand.old }
    ensures of_this_table { IsSeatOf table.now seat.new }
    ensures idle { (view_of seat.new).run ≡ None }
    ensures gave { Gave (frames_of table.now) (view_of seat.old) (view_of seat.new) (pushed_by hand.old) (pushed_by hand.new) }
    ensures serves { HandServes table.now seat.new hand.new }
    ensures asks { asks_of hand.new ≡ asks_of hand.old }
    ensures deques { KeepsDeques hand.old hand.new }
{
    give(table, seat, end, outputs, frame, hand);
    table.finish(seat, end);
}

// The end of a frame by what was read of it: poisoned where there is a root, and else that of its body.
fn end_of<B: Bodies>(
    bodies: &B,
    frame: u32,
    root: Option<u32>,
    inputs: &[i32],
    outputs: &mut [i32],
    scratch: &mut B::Scratch,
) -> TaskEnd
    requires taken { B.takes bodies.now frame (length inputs.now) (length outputs.old) }
    requires fits { B.fits bodies.now scratch.old }
    ensures end { (elements : List Elem) → root ≡ least_root elements → (root ≡ None → inputs.now ≡ values_of elements)
        → result ≡ (poisoning (B.outcome bodies.now) frame elements).end }
    ensures outputs { (elements : List Elem) → root ≡ least_root elements → (root ≡ None → inputs.now ≡ values_of elements)
        → result ≡ Done → outputs.new ≡ (poisoning (B.outcome bodies.now) frame elements).outputs }
    ensures fits { B.fits bodies.now scratch.new }
{
    if let Some(root) = root {
        return TaskEnd::Poisoned { root };
    }
    bodies.run(frame, inputs, outputs, scratch)
}

// Runs the frame that was claimed: its body, unless something that it reads is poison.
fn run_one<B: Bodies>(
    table: &FrameTable,
    seat: &mut FrameSeat,
    frame: u32,
    bodies: &B,
    scratch: &mut B::Scratch,
    inputs: &mut [i32],
    outputs: &mut [i32],
    hand: &mut Hand,
)
    requires of_this_table { IsSeatOf table.now seat.old }
    requires exists { frame < length table.now.plan.now.frames }
    requires meant { (known_of table.now).meaning ≡ plan_meaning (known_of table.now).plan (B.outcome bodies.now) }
    requires serves { Serves (known_of table.now).plan (B.outcome bodies.now) (B.takes bodies.now) }
    requires fits { B.fits bodies.now scratch.old }
    requires runs { (view_of seat.old).run ≡ Some (first_place (known_of table.now).plan frame) }
    requires inputs { length inputs.old ≡ (frame_at (known_of table.now).plan frame).inputs }
    requires outputs { length outputs.old ≡ (frame_at (known_of table.now).plan frame).outputs }
    requires hand { HandServes table.now seat.old hand.old }
    ensures of_this_table { IsSeatOf table.now seat.new }
    ensures idle { (view_of seat.new).run ≡ None }
    ensures gave { Gave (frames_of table.now) (view_of seat.old) (view_of seat.new) (pushed_by hand.old) (pushed_by hand.new) }
    ensures serves { HandServes table.now seat.new hand.new }
    ensures asks { asks_of hand.new ≡ asks_of hand.old }
    ensures deques { KeepsDeques hand.old hand.new }
    ensures fits { B.fits bodies.now scratch.new }
{
    let root = table.read_windows(seat, inputs);
    let end = end_of(bodies, frame, root, inputs, outputs, scratch);
    settle(table, seat, outputs, frame, end, hand);
}

/// Runs the frame that was claimed, and writes it into the log.
pub(crate) fn run_claimed<B: Bodies, G: Gate>(
    table: &FrameTable,
    seat: &mut FrameSeat,
    frame: u32,
    hand: &mut Hand,
    bodies: &B,
    scratch: &mut B::Scratch,
    log: &mut WorkLog,
    gate: &G,
)
    requires of_this_table { IsSeatOf table.now seat.old }
    requires exists { frame < length table.now.plan.now.frames }
    requires meant { (known_of table.now).meaning ≡ plan_meaning (known_of table.now).plan (B.outcome bodies.now) }
    requires serves { Serves (known_of table.now).plan (B.outcome bodies.now) (B.takes bodies.now) }
    requires fits { B.fits bodies.now scratch.old }
    requires runs { (view_of seat.old).run ≡ Some (first_place (known_of table.now).plan frame) }
    requires room { 1 ≤ log.old.frames.spare }
    requires inputs { (frame_at (known_of table.now).plan frame).inputs ≤ holds_up_to log.old.inputs }
    requires outputs { (frame_at (known_of table.now).plan frame).outputs ≤ holds_up_to log.old.outputs }
    requires hand { HandServes table.now seat.old hand.old }
    ensures of_this_table { IsSeatOf table.now seat.new }
    ensures idle { (view_of seat.new).run ≡ None }
    ensures gave { Gave (frames_of table.now) (view_of seat.old) (view_of seat.new) (pushed_by hand.old) (pushed_by hand.new) }
    ensures serves { HandServes table.now seat.new hand.new }
    ensures asks { asks_of hand.new ≡ asks_of hand.old }
    ensures deques { KeepsDeques hand.old hand.new }
    ensures fits { B.fits bodies.now scratch.new }
    ensures logged { log.new.frames.items ≡ log.old.frames.items ++ frame ∷ [] }
    ensures room { log.new.frames.spare + 1 ≡ log.old.frames.spare }
    ensures worker { log.new.worker ≡ log.old.worker }
    ensures windows { (holds_up_to log.new.inputs ≡ holds_up_to log.old.inputs)
        × (holds_up_to log.new.outputs ≡ holds_up_to log.old.outputs) }
{
    gate.at(log.worker, frame);
    log.frames.push_spare(frame);
    let place = table.plan().frame(frame);
    fill(&mut log.inputs, place.inputs as usize);
    fill(&mut log.outputs, place.outputs as usize);
    let inputs = log.inputs.as_mut_slice();
    let outputs = log.outputs.as_mut_slice();
    run_one(table, seat, frame, bodies, scratch, inputs, outputs, hand);
}
