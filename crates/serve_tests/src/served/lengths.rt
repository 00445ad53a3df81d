//! Reads of a file of jobs that fail. Files of jobs at their limit and past it are rows of `tests/command.sh`.

ghost use Rattle.std.specs.Prelude.{◌≤◌};

use super::calls::{has_left, jobs_of, serve};
use std::process::Abort;
use std::thread::Threads;

const ANSWER: &[u8] =
    b"job 0 status 0 out 4 report 27\n\x04\x03\x02\x01control done\noutput 4 of 4\n";

/// The number of the call of the file that fails, how many bytes a read gives, and what is written.
type Fault = (u64, u32, &'static [u8]);

const TWO: &[u8] =
    b"job 0 status 0 out 4 report 27\n\x04\x03\x02\x01control done\noutput 4 of 4\njob 1 status 2 out 0 report 6\nusage\n";

static FAULTS: [Fault; 7] = [
    (0, 19, b""),
    (1, 19, b""),
    (2, 19, ANSWER),
    (3, 19, TWO),
    // `stop` has come, and its line feed hasn't
    (2, 23, ANSWER),
    (3, 12, TWO),
    (2, 12, b""),
];

/// Asks that this is written where a call of the file fails.
fn is_answered<R: Threads + Sync + AllocGlobal + Abort>(rt: &R, call: u64, most: u32, out: &[u8])
    requires { 1 ≤ most }
{
    let mut jobs = jobs_of(rt, rt.alloc(), b"run first.c in.bin\nstop\n");
    jobs.most(most);
    jobs.fail_at(call).expect(rt, "memory");
    let left = serve(rt, jobs);
    has_left(rt, &left, out, "read fault jobs\n", 5);
}

fn are_answered<R: Threads + Sync + AllocGlobal + Abort>(rt: &R, faults: &[Fault]) {
    for (call, most, out) in faults {
        is_answered(rt, *call, (*most).max(1), *out);
    }
}

#[test]
fn what_was_given_before_a_fault_is_answered(rt: HostRuntime) {
    are_answered(&rt, &FAULTS);
}
