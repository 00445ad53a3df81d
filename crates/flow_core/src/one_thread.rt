ghost use Rattle.std.specs.Prelude.{◌≡◌, OnOk, IfOk, length};
ghost use Rattle.flow_core_laws.specs.Outcome.{ends_of};
ghost use Rattle.flow_core_laws.specs.Plans.{plan_meaning, sink_elements};
ghost use Rattle.flow_core_laws.specs.IsSound.{IsSound};
ghost use Rattle.flow_core_laws.specs.Serves.{Serves};
ghost use Rattle.flow_core.specs.Board.{IsRun};

use crate::board::Board;
use crate::frame_run::{FrameBuffers, run_frame};
use flow_core_laws::{Bodies, Ends, Plan};
use os_io::Memory;
use std::alloc::Global;

/// Runs the opened frames in turn, those that open on the way too, until each of them was run.
fn run_all<B: Bodies>(
    board: &mut Board,
    plan: &Plan,
    bodies: &B,
    buffers: &mut FrameBuffers,
    scratch: &mut B::Scratch,
) -> Result<(), Memory>
    requires sound { IsSound plan.now }
    requires served { Serves plan.now (B.outcome bodies.now) (B.takes bodies.now) }
    requires begins { IsRun plan.now (plan_meaning plan.now (B.outcome bodies.now)) board.old 0 }
    requires fitting { B.fits bodies.now scratch.old }
    ensures { OnOk result (IsRun plan.now (plan_meaning plan.now (B.outcome bodies.now))
        board.new (length board.new.waits.opened.items)) }
{
    let mut turn = 0;
    while turn < board.waits.opened.len() {
        let frame = board.waits.opened[turn];
        run_frame(board, plan, bodies, frame, buffers, scratch)?;
        turn += 1;
    }
    Ok(())
}

/// Runs a plan on one thread, round by round: first the frames that miss nothing, then those that
/// these open, and so on. Each frame is looked at once, when its count of missing elements comes to
/// 0, and each element is moved once, into the cells of its readers.
pub fn execute_one<B: Bodies>(alloc: Global, plan: &Plan, bodies: &B) -> Result<Ends, Memory>
    requires sound { IsSound plan.now }
    requires served { Serves plan.now (B.outcome bodies.now) (B.takes bodies.now) }

    // None exactly where the meaning has no end, or no element.
    ensures ends { IfOk result (λ e. e.ends
        ≡ ends_of (plan_meaning plan.now (B.outcome bodies.now))) }
    ensures output { IfOk result (λ e. e.output
        ≡ sink_elements plan.now (plan_meaning plan.now (B.outcome bodies.now))) }
{
    let mut scratch = bodies.scratch(alloc)?;
    let mut buffers = FrameBuffers::new(alloc);
    let mut board = Board::open(alloc, plan)?;
    run_all(&mut board, plan, bodies, &mut buffers, &mut scratch)?;
    let ends = board.close(alloc, plan)?;
    Ok(ends)
}
