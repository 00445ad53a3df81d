//! Texts that are refused over a report that stops, and files of which a call fails.

use super::calls::{ALL, call, failing};
use super::has_left;
use kernels::INVERT;
use std::process::Abort;
use std::thread::Threads;

const WORDS: [&str; 3] = ["run", "p.c", "in"];

/// Texts, each refused by another stage.
const TEXTS: [&str; 3] = ["?", "int", "int main(void) { x = 1; }"];

/// Asks that a text is refused with the status for it where two bytes of the report are taken.
fn is_refused<R: Threads + Sync + AllocGlobal + Abort>(rt: &R, text: &str) {
    let left = call(rt, &WORDS, text.as_bytes(), &[], None, ALL, failing(2, 1));
    has_left(rt, &left, &[], "re", 3);
}

#[test]
fn a_refusal_keeps_its_status_where_the_report_stops(rt: HostRuntime) {
    for text in TEXTS {
        is_refused(&rt, text);
    }
}

/// Asks that this is told where a call of the files fails.
fn is_told<R: Threads + Sync + AllocGlobal + Abort>(rt: &R, failed: u64, told: &str) {
    let left = call(rt, &WORDS, INVERT.as_bytes(), &[1], Some(failed), ALL, ALL);
    has_left(rt, &left, &[], told, 5);
}

/// Each file is opened, read, and read again at its end.
#[test]
fn a_file_that_cannot_be_read_is_named(rt: HostRuntime) {
    for failed in 0..3 {
        is_told(&rt, failed, "read fault program\n");
    }
    for failed in 3..6 {
        is_told(&rt, failed, "read fault input\n");
    }
}
