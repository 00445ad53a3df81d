//! Lines are read while a job runs.

use super::calls::{serving, sink, small_files};
use super::meeting::{Meeting, TwoLines};
use os_serve::serve_words;

const ANSWERS: &[u8] =
    b"job 0 status 0 out 4 report 27\n\x04\x03\x02\x01control done\noutput 4 of 4\n\
job 1 status 0 out 4 report 27\n\x04\x03\x02\x01control done\noutput 4 of 4\n";

#[test]
fn the_second_line_is_read_while_the_first_job_runs(rt: HostRuntime) {
    let alloc = rt.alloc();
    let words = serving(&rt, alloc);
    let meeting = Meeting::new();
    let mut jobs = TwoLines::new(&meeting);
    let mut files = small_files(&rt, alloc);
    let mut out = sink(&rt, alloc, 65_536, 65_536);
    let mut report = sink(&rt, alloc, 64, 64);
    let status = serve_words(
        &rt,
        alloc,
        &words,
        &mut jobs,
        &mut files,
        &mut out,
        &mut report,
        &meeting,
    );
    assert!(rt; status == 0);
    assert!(rt; out.bytes() == ANSWERS);
    assert!(rt; meeting.was_held());
}
