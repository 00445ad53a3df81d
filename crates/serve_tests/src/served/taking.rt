//! Outputs that don't take all answers: the status is 6, and what was taken is a front.

use super::calls::{jobs_of, serve_to, sink};
use os_io::MemSink;
use std::process::Abort;
use std::thread::Threads;

const JOBS: &[u8] = b"run first.c in.bin\nstop\nrun first.c in.bin\n";

const ANSWERS: &[u8] =
    b"job 0 status 0 out 4 report 27\n\x04\x03\x02\x01control done\noutput 4 of 4\n\
job 1 status 2 out 0 report 6\nusage\n\
job 2 status 0 out 4 report 27\n\x04\x03\x02\x01control done\noutput 4 of 4\n";

/// Asks that an output took `taken` bytes of the answers, and no more.
fn takes<R: Threads + Sync + AllocGlobal + Abort>(rt: &R, out: MemSink, taken: usize) {
    let jobs = jobs_of(rt, rt.alloc(), JOBS);
    let left = serve_to(rt, jobs, out);
    assert!(rt; left.status == if taken < ANSWERS.len() { 6 } else { 0 });
    assert!(rt; left.out.as_slice() == &ANSWERS[..taken.min(ANSWERS.len())]);
    assert!(rt; left.report.is_empty());
}

/// Where each answer ends, a byte before that and a byte behind it; and where all were taken.
static ROOMS: [u32; 10] = [0, 1, 61, 62, 63, 97, 98, 99, 159, 160];

/// Asks that an output with each of these rooms took as many bytes as it has room for.
fn are_cut<R: Threads + Sync + AllocGlobal + Abort>(rt: &R, rooms: &[u32]) {
    for room in rooms {
        let out = sink(rt, rt.alloc(), *room, 7);
        takes(rt, out, *room as usize);
    }
}

#[test]
fn an_output_is_cut_behind_each_answer(rt: HostRuntime) {
    are_cut(&rt, &ROOMS);
}

/// The number of the write that fails, and how many bytes were taken before: an answer is written as its heading, its output and its
/// report, of which the second has no output.
static BREAKS: [(u64, usize); 9] = [
    (0, 0),
    (1, 31),
    (2, 35),
    (3, 62),
    (4, 92),
    (5, 98),
    (6, 129),
    (7, 133),
    (8, 160),
];

/// Asks that an output of which a write fails took before it as many bytes as the row of that write says.
fn break_off<R: Threads + Sync + AllocGlobal + Abort>(rt: &R, rows: &[(u64, usize)]) {
    for (write, taken) in rows {
        let mut out = sink(rt, rt.alloc(), 1000, 1000);
        out.fail_at(*write).expect(rt, "memory");
        takes(rt, out, *taken);
    }
}

#[test]
fn an_output_breaks_within_and_behind_each_answer(rt: HostRuntime) {
    break_off(&rt, &BREAKS);
}
