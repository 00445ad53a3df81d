//! What a run came to, read from a closed table.
ghost use Rattle.std.specs.Prelude.{◌≡◌, ◌+◌, ◌≤◌, [], length};
ghost use Rattle.flow_core_laws.specs.Outcome.{ends_of};
ghost use Rattle.flow_core_laws.specs.Plans.{plan_meaning, sink_elements};
ghost use Rattle.flow_core_laws.specs.IsSound.{IsSound};
ghost use Rattle.frame_table.specs.Seats.{IsWhole};
ghost use Rattle.frame_table.specs.Left.{numbers_of};
ghost use Rattle.frame_table.specs.Opened.{known_for};

use flow_core_laws::{Bodies, Elem, Plan, TaskEnd};
use frame_table::Closed;
use os_io::{List, Room};

/// The end of each frame, or none.
pub fn gather_ends<B: Bodies>(
    closed: &Closed,
    plan: &Plan,
    bodies: &B,
    seats: u32,
    mut ends: Room<Option<TaskEnd>>,
) -> List<Option<TaskEnd>>
    requires sound { IsSound plan.now }
    requires long { length plan.now.frames + 1 ≤ length (numbers_of closed.now) }
    requires whole { IsWhole (known_for plan.now (B.outcome bodies.now) seats) (numbers_of closed.now) }
    requires empty { ends.items ≡ [] }
    requires room { length plan.now.frames ≤ ends.spare }
    ensures { result ≡ ends_of (plan_meaning plan.now (B.outcome bodies.now)) }
{
    for frame in 0..plan.frames.len() as u32 {
        ends.push_spare(closed.end(frame));
    }
    ends.into_list()
}

/// The element of each sink cell, or none.
pub fn gather_output<B: Bodies>(
    closed: &Closed,
    plan: &Plan,
    bodies: &B,
    seats: u32,
    mut output: Room<Option<Elem>>,
) -> List<Option<Elem>>
    requires sound { IsSound plan.now }
    requires frames { closed.now.frames ≡ length plan.now.frames }
    requires long { length (numbers_of closed.now) ≡ length plan.now.frames + 1 + length plan.now.filled }
    requires whole { IsWhole (known_for plan.now (B.outcome bodies.now) seats) (numbers_of closed.now) }
    requires empty { output.items ≡ [] }
    requires room { plan.now.sink.inputs ≤ output.spare }
    ensures { result ≡ sink_elements plan.now (plan_meaning plan.now (B.outcome bodies.now)) }
{
    let first = plan.sink.cell;
    for k in 0..plan.sink.inputs {
        output.push_spare(closed.cell(first + k));
    }
    output.into_list()
}
