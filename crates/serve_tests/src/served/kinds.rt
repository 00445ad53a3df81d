//! Jobs of each kind, where a read gives a byte. That whole files of jobs are answered so is shown by `tests/command.sh`.

use super::calls::{has_left, jobs_of, serve};
use std::process::Abort;
use std::thread::Threads;

/// The jobs, and what is written of them.
type Row = (&'static [u8], &'static [u8]);

static ROWS: [Row; 15] = [
    (
        b"run first.c in.bin\nstop",
        b"job 0 status 0 out 4 report 27\n\x04\x03\x02\x01control done\noutput 4 of 4\njob 1 status 2 out 0 report 6\nusage\n",
    ),
    (b"", b""),
    (b"\n", b"job 0 status 2 out 0 report 6\nusage\n"),
    (
        b"\n\nstop\n",
        b"job 0 status 2 out 0 report 6\nusage\njob 1 status 2 out 0 report 6\nusage\njob 2 status 2 out 0 report 6\nusage\n",
    ),
    (
        b" \trun  first.c\tin.bin \r\n",
        b"job 0 status 0 out 4 report 27\n\x04\x03\x02\x01control done\noutput 4 of 4\n",
    ),
    (
        b"run first.c in.bin --workers 1",
        b"job 0 status 0 out 4 report 27\n\x04\x03\x02\x01control done\noutput 4 of 4\n",
    ),
    (
        b"run divide.c gap.bin\n",
        b"job 0 status 1 out 1 report 51\n\x32trapped 1 code 2 line 6\ncontrol done\noutput 1 of 3\n",
    ),
    (
        b"run bad.c in.bin\nrun first.c in.bin\n",
        b"job 0 status 3 out 0 report 17\nrefused 4 line 1\njob 1 status 0 out 4 report 27\n\x04\x03\x02\x01control done\noutput 4 of 4\n",
    ),
    (
        b"run first.c none\nrun none in.bin\nrun first.c in.bin\n",
        b"job 0 status 5 out 0 report 17\nread fault input\n\
job 1 status 5 out 0 report 19\nread fault program\n\
job 2 status 0 out 4 report 27\n\x04\x03\x02\x01control done\noutput 4 of 4\n",
    ),
    (
        b"run long.c in.bin\nrun first.c in.bin\n",
        b"job 0 status 4 out 0 report 17\ntoo long program\njob 1 status 0 out 4 report 27\n\x04\x03\x02\x01control done\noutput 4 of 4\n",
    ),
    (
        b"gen 1 2\n",
        b"job 0 status 0 out 60 report 0\nseed 1 blocks 2\ninput 8 sum 1363\noutput 8 sum 1172\nstatus 0\n",
    ),
    (
        b"serve jobs\nserve\nserve a b\n",
        b"job 0 status 2 out 0 report 6\nusage\njob 1 status 2 out 0 report 6\nusage\njob 2 status 2 out 0 report 6\nusage\n",
    ),
    (
        b"run first.c \xff\nrun first.c in.bin\n",
        b"job 0 status 2 out 0 report 6\nusage\njob 1 status 0 out 4 report 27\n\x04\x03\x02\x01control done\noutput 4 of 4\n",
    ),
    (
        b"run first.c in.bin\x00\n",
        b"job 0 status 5 out 0 report 17\nread fault input\n",
    ),
    (
        b"\xc3\n\xa9",
        b"job 0 status 2 out 0 report 6\nusage\njob 1 status 2 out 0 report 6\nusage\n",
    ),
];

/// Asks that a row's jobs are answered so.
fn has_row<R: Threads + Sync + AllocGlobal + Abort>(rt: &R, jobs: &[u8], wanted: &[u8]) {
    let mut jobs = jobs_of(rt, rt.alloc(), jobs);
    jobs.most(1);
    let left = serve(rt, jobs);
    has_left(rt, &left, wanted, "", 0);
}

/// Asks that each row's jobs are answered so.
fn has_rows<R: Threads + Sync + AllocGlobal + Abort>(rt: &R, rows: &[Row]) {
    for (jobs, wanted) in rows {
        has_row(rt, *jobs, *wanted);
    }
}

#[test]
fn each_job_is_answered_where_a_read_gives_a_byte(rt: HostRuntime) {
    has_rows(&rt, &ROWS);
}
