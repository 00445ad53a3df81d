//! Sinks that don't take a whole report.

use super::{Case, Sink};
use crate::literals::{reads, writes};
use flow_core::ControlEnd;
use std::test::Fail;

const REPORT: &[u8] =
    b"starved 0 stream 2 position 0 producer 1 starved\nstarved 1 stream 3 position 0 producer 0 starved\n\
         starved 2 stream 2 position 1 producer 2 starved\ncontrol done\noutput 0 of 0\n";

static CASE: Case<'static> = Case {
    streams: 4,
    input_len: 0,
    tasks: &[
        &[reads!(2, 1, 1, 0), writes!(3, 1)],
        &[reads!(3, 1, 1, 0), writes!(2, 1)],
        &[reads!(2, 1, 1, 0), writes!(2, 1)],
    ],
    ends: &[None, None, None],
    output: &[],
    control: ControlEnd::Done,
};

/// A sink's room, how much it takes in a call, the call that fails, how many bytes of the report it takes, and why no more.
static SINKS: [(u32, u32, u64, usize, &str); 7] = [
    (174, 174, 2, 174, "none"),
    (13, 4096, 99, 13, "stuck"),
    (173, 1, 999, 173, "stuck"),
    (4096, 0, 99, 0, "stuck"),
    (4096, 4096, 0, 0, "failed"),
    (4096, 4096, 1, 128, "failed"),
    (4096, 100, 1, 100, "failed"),
];

#[test]
fn a_report_is_cut_short_by_the_sink_alone(rt: HostRuntime) -> Result<(), Fail> {
    for (room, most, failing, count, cause) in &SINKS {
        let sink = Sink {
            room: *room,
            most: *most,
            failing: *failing,
        };
        let told = &REPORT[..(*count).min(REPORT.len())];
        CASE.is_told(&rt, sink, told, cause)?;
    }
    Ok(())
}
