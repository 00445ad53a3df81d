//! One seat of a table, call by call: a reader that was created before the frame which gives to it.
ghost use Rattle.std.specs.Prelude.{◌≡◌, ⊤};
ghost use Rattle.flow_core_concurrent.specs.ReaderFirst as reader;
ghost use Rattle.frame_table.specs.Tokens.{IsSeatOf, view_of, known_of};
ghost use Rattle.runtime_tests.specs.OneSeat.{IsAfter};

use crate::literals::{frame, piece};
use crate::plans::plan_of;
use flow_core::{Bodies, Elem, TaskEnd};
use frame_table::{FrameSeat, FrameTable};
use os_io::Memory;
use std::alloc::Global;
use std::process::Abort;
use std::test::Fail;

/// What the frames give: frame 0 one more than it reads, frame 1 the number 41. A table never runs bodies, so
/// that these take frame 1 alone.
#[derive(Drop)]
struct Reader;

impl Bodies for Reader {
    type Scratch = ();

    ghost outcome = { λ s f inputs. reader.outcome f inputs };

    ghost takes = { λ s f i o. (f ≡ 1) × (o ≡ 1) };

    ghost fits = { λ s t. ⊤ };

    fn scratch(&self, _alloc: Global) -> Result<(), Memory> {
        Ok(())
    }

    fn run(&self, _frame: u32, _inputs: &[i32], outputs: &mut [i32], _scratch: &mut ()) -> TaskEnd {
        outputs[0] = 41;
        TaskEnd::Done
    }
}

/// Each call answers what the frames' words say, and the seat's looks are counted as the steps say.
#[test]
fn steps_call_by_call(rt: HostRuntime) -> Result<(), Fail> {
    let plan = plan_of(
        rt.alloc(),
        &[frame!(0, 1, 1, 1, 0, 1), frame!(1, 0, 1, 0, 1, 1)],
        frame!(1, 1, 0, 1, 2, 0),
        &[piece!(0, 2, 0, 1, 1), piece!(1, 0, 0, 1, 0)],
        &[None, None],
        &[0, 1],
    )?;
    let (table, mut seats) = FrameTable::open(rt.alloc(), &plan, &Reader, 1)?;
    let seat = seats.remove(0);
    steps(&rt, table, seat);
    Ok(())
}

/// Whether both frames run, one after the other, and leave their ends and elements.
fn steps(rt: &impl Abort, table: FrameTable<'_>, mut seat: FrameSeat)
    requires { IsAfter table seat 0 }
{
    claims_the_open_frame(rt, &table, &mut seat);
    gives_to_the_reader(rt, &table, &mut seat);
    reads_what_was_given(rt, &table, &mut seat);
    gives_to_the_sink(rt, &table, &mut seat);
    finds_nothing_more(rt, &table, &mut seat);
    leaves_ends_and_elements(rt, table, seat);
}

/// The reader still waits; a look finds the other frame.
fn claims_the_open_frame(rt: &impl Abort, table: &FrameTable, seat: &mut FrameSeat)
    requires { IsAfter table.now seat.old 0 }
    ensures { IsAfter table.now seat.new 3 }
{
    assert!(rt; !table.claim(seat, 0));
    assert!(rt; seat.looks() == 1);
    assert!(rt; table.look(seat) == Some(1));
    assert!(rt; seat.looks() == 1);
    assert!(rt; table.claim(seat, 1));
    assert!(rt; seat.looks() == 0);
}

/// What the frame gives opens the reader.
fn gives_to_the_reader(rt: &impl Abort, table: &FrameTable, seat: &mut FrameSeat)
    requires { IsAfter table.now seat.old 3 }
    ensures { IsAfter table.now seat.new 6 }
{
    assert!(rt; table.deliver(seat, TaskEnd::Done, &[41], 1));
    table.finish(seat, TaskEnd::Done);
}

/// The reader is claimed, and reads the element.
fn reads_what_was_given(rt: &impl Abort, table: &FrameTable, seat: &mut FrameSeat)
    requires { IsAfter table.now seat.old 6 }
    ensures { IsAfter table.now seat.new 8 }
{
    assert!(rt; table.claim(seat, 0));
    let mut read = [0];
    assert!(rt; table.read_windows(seat, &mut read) == None);
    assert!(rt; read == [41]);
}

/// What the reader gives opens the sink.
fn gives_to_the_sink(rt: &impl Abort, table: &FrameTable, seat: &mut FrameSeat)
    requires { IsAfter table.now seat.old 8 }
    ensures { IsAfter table.now seat.new 11 }
{
    assert!(rt; table.deliver(seat, TaskEnd::Done, &[42], 0));
    table.finish(seat, TaskEnd::Done);
}

/// A look at each frame counts.
fn finds_nothing_more(rt: &impl Abort, table: &FrameTable, seat: &mut FrameSeat)
    requires { IsAfter table.now seat.old 11 }
    ensures { IsAfter table.now seat.new 13 }
{
    assert!(rt; table.look(seat) == None);
    assert!(rt; table.look(seat) == None);
    assert!(rt; seat.looks() == 2);
}

/// What the table holds at its end.
fn leaves_ends_and_elements(rt: &impl Abort, table: FrameTable<'_>, seat: FrameSeat)
    requires { IsAfter table seat 13 }
{
    let closed = table.close(seat);
    assert!(rt; closed.end(0) == Some(TaskEnd::Done));
    assert!(rt; closed.end(1) == Some(TaskEnd::Done));
    assert!(rt; closed.end(2) == None);
    assert!(rt; closed.cell(0) == Some(Elem::Value(41)));
    assert!(rt; closed.cell(1) == Some(Elem::Value(42)));
}
