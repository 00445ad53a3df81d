//! Runs of the command over a program `p.c` and an input `in`: what a call alone can show, as the call of a file or a sink that fails, and
//! how many workers run. `tests/rows` and `tests/command.sh` have the rows of words, outputs, reports and statuses, over the built program.

mod calls;
mod delivery;
mod jobs;
mod meeting;
mod refusals;
mod workers;

use calls::Left;
use std::process::Abort;

/// Asks that a call left this output, report and status.
fn has_left(rt: &impl Abort, left: &Left, out: &[u8], report: &str, status: u8) {
    assert!(rt; left.report.as_slice() == report.as_bytes());
    assert!(rt; left.out.as_slice() == out);
    assert!(rt; left.status == status, "{report}");
}
