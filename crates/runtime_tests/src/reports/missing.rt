//! The element that a starved activation waits for.

ghost use Rattle.stream_match_layouts.specs.Layout.{IsLayout};

use super::Case;
use crate::literals::{reads, value, writes};
use collector::{Missing, first_missing};
use flow_core::{ControlEnd, Ends, TaskEnd};
use std::process::Abort;
use std::test::Fail;
use stream_match::Layout;

const DONE: Option<TaskEnd> = Some(TaskEnd::Done);

/// A missing element by its stream, position and producer.
macro_rules! missing {
    ($stream:expr, $position:expr, $producer:expr) => {
        Some(Missing {
            stream: $stream,
            position: $position,
            producer: $producer,
        })
    };
}

static CASE: Case<'static> = Case {
    streams: 3,
    input_len: 2,
    tasks: &[
        &[writes!(2, 2)],
        &[writes!(2, 3)],
        &[writes!(2, 2)],
        // Nothing is missing: a peek at the input, and what two producers gave.
        &[reads!(0, 2, 0, 0), reads!(2, 5, 0, 0)],
        // The window goes over three producers, of which the last has no end.
        &[reads!(2, 7, 0, 0)],
        // The item that comes first counts, though a later one misses an earlier position.
        &[reads!(2, 6, 6, 0), reads!(0, 3, 3, 0)],
        &[reads!(0, 1, 1, 0), reads!(2, 1, 1, 0)],
        &[reads!(2, 1, 1, 0)],
        &[writes!(1, 1)],
    ],
    ends: &[DONE, DONE, None, DONE, None, None, None, None, DONE],
    output: &[value!(0)],
    control: ControlEnd::Done,
};

/// The first missing element of some frames.
static FOUND: [(u32, Option<Missing>); 7] = [
    (0, None),
    (3, None),
    (4, missing!(2, 5, Some(2))),
    (5, missing!(2, 5, Some(2))),
    (6, missing!(0, 3, None)),
    (7, missing!(2, 7, None)),
    (8, None),
];

#[test]
fn the_first_missing_element_is_found(rt: HostRuntime) -> Result<(), Fail> {
    finds(&rt, &CASE, &FOUND)
}

/// Whether these are found in a run.
fn finds(
    rt: &(impl AllocGlobal + Abort),
    case: &Case<'_>,
    rows: &[(u32, Option<Missing>)],
) -> Result<(), Fail> {
    let layout = case.layout(rt.alloc())?;
    let ends = case.run_ends(rt.alloc())?;
    for (frame, found) in rows {
        is_missing(rt, &layout, &ends, *frame, *found);
    }
    Ok(())
}

/// Whether this is the first missing element of a frame.
fn is_missing(rt: &impl Abort, layout: &Layout, ends: &Ends, frame: u32, found: Option<Missing>)
    requires { IsLayout layout.now }
{
    assert!(rt; frame as usize + 1 < layout.starts.len());
    assert!(rt; first_missing(layout, ends, frame) == found);
}
