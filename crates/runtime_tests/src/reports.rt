//! What is told of runs: the output's bytes, the report, and what a starved activation waits for.

ghost use Rattle.std.specs.Prelude.{IfOk};
ghost use Rattle.stream_match_layouts.specs.Layout.{IsLayout};

mod missing;
mod sinks;
mod told;

use crate::activations::layout_of;
use crate::bytes::are_bytes;
use collector::{output_bytes, report_lines};
use flow_core::{Claim, ControlEnd, Elem, Ends, TaskEnd};
use os_io::{List, MemSink, Memory, WriteError};
use std::alloc::Global;
use std::process::Abort;
use std::test::Fail;
use stream_match::Layout;

/// What a run came to.
struct Case<'a> {
    streams: u32,
    input_len: u32,
    /// The claims of each activation.
    tasks: &'a [&'a [Claim]],
    ends: &'a [Option<TaskEnd>],
    output: &'a [Option<Elem>],
    control: ControlEnd,
}

/// A run, the bytes that are written, and what is reported.
type Told = (Case<'static>, &'static [u8], &'static str);

impl Case<'_> {
    /// Whether these bytes are written.
    fn writes(&self, rt: &(impl AllocGlobal + Abort), written: &[u8]) -> Result<(), Memory> {
        let ends = self.run_ends(rt.alloc())?;
        assert!(rt; are_bytes(ends.output.as_slice()));
        let bytes = output_bytes(rt.alloc(), &ends)?;
        assert!(rt; bytes.as_slice() == written);
        Ok(())
    }

    /// Whether this is reported, whatever the sink takes in a call; where it takes all, in few calls.
    fn tells(&self, rt: &(impl AllocGlobal + Abort), report: &[u8]) -> Result<(), Fail> {
        let writes = report.len() as u64 / 128 + 1;
        for (most, failing) in [(4096, writes), (1, 4096)] {
            let sink = Sink {
                room: 4096,
                most,
                failing,
            };
            self.is_told(rt, sink, report, "none")?;
        }
        Ok(())
    }

    /// Whether a sink takes this of the report, and why it doesn't take more.
    fn is_told(
        &self,
        rt: &(impl AllocGlobal + Abort),
        sink: Sink,
        told: &[u8],
        cause: &str,
    ) -> Result<(), Fail> {
        let layout = self.layout(rt.alloc())?;
        let ends = self.run_ends(rt.alloc())?;
        takes(rt, &layout, &ends, &self.control, sink, told, cause)?;
        Ok(())
    }

    /// The ends of the run.
    fn run_ends(&self, alloc: Global) -> Result<Ends, Memory> {
        let ends = List::from_slice(alloc, self.ends)?;
        let output = List::from_slice(alloc, self.output)?;
        Ok(Ends { ends, output })
    }

    /// The layout of the run.
    fn layout(&self, alloc: Global) -> Result<Layout, Fail>
        ensures { IfOk result IsLayout }
    {
        layout_of(alloc, self.streams, self.input_len, self.tasks)
    }
}

/// A sink that has room for `room` bytes, takes at most `most` in a call and fails at the call numbered `failing`.
#[derive(Clone, Copy)]
struct Sink {
    room: u32,
    most: u32,
    failing: u64,
}

/// Whether a sink takes this of a report, and why it doesn't take more.
fn takes(
    rt: &(impl AllocGlobal + Abort),
    layout: &Layout,
    ends: &Ends,
    control: &ControlEnd,
    sink: Sink,
    told: &[u8],
    cause: &str,
) -> Result<(), Memory>
    requires { IsLayout layout.now }
{
    let mut taker = MemSink::new(rt.alloc(), sink.room, sink.most)?;
    taker.fail_at(sink.failing)?;
    let why = cause_of(report_lines(layout, ends, control, &mut taker));
    assert!(rt; taker.bytes() == told);
    assert!(rt; why == cause);
    Ok(())
}

/// Whether each run is written and reported so.
fn all_tell(rt: &(impl AllocGlobal + Abort), rows: &[Told]) -> Result<(), Fail> {
    for (case, written, report) in rows {
        case.writes(rt, *written)?;
        case.tells(rt, report.as_bytes())?;
    }
    Ok(())
}

/// Why a sink took no more of a report.
fn cause_of(outcome: Result<(), WriteError>) -> &'static str {
    match outcome {
        Ok(()) => "none",
        Err(WriteError::Failed) => "failed",
        Err(WriteError::Stuck) => "stuck",
    }
}
