//! Outputs and reports that don't take all: the status is 6, and what was taken is a front.

use super::calls::{ALL, Taking, call, call_through, failing, files_of};
use super::has_left;
use kernels::INVERT;
use osrun_core::NoGate;
use std::process::Abort;
use std::thread::Threads;

const WORDS: [&str; 3] = ["run", "p.c", "in"];

static INPUT: [u8; 8] = [0, 1, 2, 3, 252, 253, 254, 255];

static OUTPUT: [u8; 8] = [255, 254, 253, 252, 3, 2, 1, 0];

const REPORT: &str = "control done\noutput 8 of 8\n";

/// The lines of `gen 1 2`.
const LINES: &str = "seed 1 blocks 2\ninput 8 sum 1363\noutput 8 sum 1172\nstatus 0\n";

/// Takes at most `$room` bytes in all.
macro_rules! narrow {
    ($room:expr) => {
        Taking {
            room: $room,
            most: 64,
            failing: None,
        }
    };
}

/// Takes at most `$most` bytes a call, until the call numbered `$call` fails.
macro_rules! breaking {
    ($most:expr, $call:expr) => {
        Taking {
            room: 64,
            most: $most,
            failing: Some($call),
        }
    };
}

/// Takes a byte a call.
const SLOW: Taking = Taking {
    room: 64,
    most: 1,
    failing: None,
};

/// How the output and the report are taken, how many bytes of each are taken, and the status.
type Row = (Taking, Taking, usize, usize, u8);

static ROWS: [Row; 9] = [
    (SLOW, SLOW, 8, 27, 0),
    (breaking!(3, 0), ALL, 0, 0, 6),
    (breaking!(3, 1), ALL, 3, 0, 6),
    (narrow!(5), ALL, 5, 0, 6),
    (narrow!(0), ALL, 0, 0, 6),
    (ALL, breaking!(64, 0), 8, 0, 6),
    (ALL, breaking!(3, 1), 8, 3, 6),
    (ALL, narrow!(3), 8, 3, 6),
    (ALL, narrow!(13), 8, 13, 6),
];

/// Asks that a run which inverts blocks of 4 over the sinks of a row delivers as many bytes of the output and of the report as the row says.
fn delivers<R: Threads + Sync + AllocGlobal + Abort>(rt: &R, row: Row) {
    let (out, told, bytes, lines, status) = row;
    let left = call(rt, &WORDS, INVERT.as_bytes(), &INPUT, None, out, told);
    assert!(rt; left.status == status);
    assert!(rt; OUTPUT.as_slice().get(..bytes) == Some(left.out.as_slice()));
    assert!(rt; REPORT.as_bytes().get(..lines) == Some(left.report.as_slice()));
}

fn all_deliver<R: Threads + Sync + AllocGlobal + Abort>(rt: &R, rows: &[Row]) {
    for row in rows {
        delivers(rt, *row);
    }
}

#[test]
fn what_was_taken_is_a_front(rt: HostRuntime) {
    all_deliver(&rt, &ROWS);
    for taken in 0..8 {
        delivers(&rt, (failing(1, taken as u64), ALL, taken, 0, 6));
    }
    for taken in 0..27 {
        delivers(&rt, (ALL, failing(1, taken as u64), 8, taken, 6));
    }
}

/// How an output takes lines, and how many bytes of them.
static LINES_TAKEN: [(Taking, usize); 6] = [
    (narrow!(0), 0),
    (narrow!(5), 5),
    (narrow!(59), 59),
    (breaking!(64, 0), 0),
    (breaking!(3, 1), 3),
    (breaking!(1, 16), 16),
];

/// Asks that the output of each row takes as many bytes of the lines as the row says.
fn lines_are_cut<R: Threads + Sync + AllocGlobal + Abort>(rt: &R, rows: &[(Taking, usize)]) {
    for (out, taken) in rows {
        let left = call(rt, &["gen", "1", "2"], &[], &[], None, *out, ALL);
        let lines = LINES.as_bytes();
        has_left(rt, &left, &lines[..(*taken).min(lines.len())], "", 6);
    }
}

#[test]
fn what_an_output_takes_of_lines_is_a_front(rt: HostRuntime) {
    lines_are_cut(&rt, &LINES_TAKEN);
}

/// The first of 5,000 activations waits for the last.
const ACROSS: &str = r"int main(void) {
    int s __attribute__((stream));
    int i, x, y;
    #pragma omp tick(s >> 4998)
    #pragma omp task input(s >> x) output(osout << y)
    y = x & 255;
    for (i = 0; i < 4999; i++) {
        #pragma omp task output(s << x)
        x = i;
    }
}
";

/// A long run is cut at its first byte.
#[test]
fn nothing_is_taken_of_a_long_run(rt: HostRuntime) {
    let left = call(
        &rt,
        &WORDS,
        ACROSS.as_bytes(),
        &[],
        None,
        failing(64, 0),
        ALL,
    );
    has_left(&rt, &left, &[], "", 6);
}

/// Words are refused where nobody can be told.
#[test]
fn nothing_is_taken_of_a_refusal(rt: HostRuntime) {
    let left = call(&rt, &[], &[], &[], Some(0), ALL, failing(64, 0));
    has_left(&rt, &left, &[], "", 2);
}

/// An empty output is delivered where nothing is taken.
#[test]
fn nothing_is_taken_of_nothing(rt: HostRuntime) {
    let left = call(&rt, &WORDS, INVERT.as_bytes(), &[], None, narrow!(0), ALL);
    has_left(&rt, &left, &[], "control done\noutput 0 of 0\n", 0);
}

#[test]
fn files_that_give_a_byte_a_call_are_read_whole(rt: HostRuntime) {
    let mut files = files_of(&rt, rt.alloc(), INVERT.as_bytes(), &INPUT);
    files.most(1);
    let left = call_through(&rt, &WORDS, files, ALL, ALL, &NoGate);
    has_left(&rt, &left, &OUTPUT, REPORT, 0);
}
