//! The words of a job: names, options and numbers. What the words name is seen by a run of `PROBE`: the files that were
//! read, how many workers ran tasks, and how many activations were created and are done. `tests/rows/usage.rows` has words that
//! name no job.

use super::calls::{ALL, call_through};
use super::has_left;
use super::meeting::Meeting;
use os_io::{MemFiles, Memory};
use std::alloc::{AllocError, Global};
use std::process::Abort;
use std::thread::Threads;

/// 64 activations, of which number i takes i + 1 turns. A control budget of at most 64 creates as many, and a task budget of
/// at most 64 lets as many be done.
const PROBE: &str = r"int main(void) {
    int i, y;
    for (i = 0; i < 64; i++) {
        #pragma omp task output(osout << y)
        { int k; for (k = 0; k < i; k++) ; y = i; }
    }
}
";

/// Words, which are parted by bars; the names of the program and the input; how many workers run; and the last line of the report.
type Job = (&'static str, &'static str, &'static str, u32, &'static str);

/// The program under its name, and an empty input under its own, if that is another.
fn files_named(alloc: Global, program: &str, input: &str) -> Result<MemFiles, Memory> {
    let mut files = MemFiles::new(alloc);
    files.add(program, PROBE.as_bytes())?;
    if input != program {
        files.add(input, b"")?;
    }
    Ok(files)
}

/// The words of a line.
fn words_in<'a>(rt: &impl Abort, alloc: Global, line: &'a str) -> Vec<&'a str> {
    let words: Result<Vec<&'a str>, AllocError> = line.split('|').collect(alloc);
    words.expect(rt, "memory")
}

/// Asks that the words name this job.
fn has_job<R: Threads + Sync + AllocGlobal + Abort>(rt: &R, job: &Job) {
    let (line, program, input, workers, output) = *job;
    let words = words_in(rt, rt.alloc(), line);
    let files = files_named(rt.alloc(), program, input).expect(rt, "memory");
    let gate = Meeting::of(workers);
    let left = call_through(rt, &words, files, ALL, ALL, &gate);
    assert!(rt;
        left.report.as_slice().ends_with(output.as_bytes()),
        "{line}"
    );
    assert!(rt; gate.count() == workers, "{line}");
}

static JOBS: [Job; 26] = [
    // names
    ("run|p.c|in", "p.c", "in", 4, "output 64 of 64\n"),
    ("run|same|same", "same", "same", 4, "output 64 of 64\n"),
    ("run|run|help", "run", "help", 4, "output 64 of 64\n"),
    ("run||", "", "", 4, "output 64 of 64\n"),
    ("run|-|-", "-", "-", 4, "output 64 of 64\n"),
    ("run|a b|grün", "a b", "grün", 4, "output 64 of 64\n"),
    ("run|p.c|--|in", "p.c", "in", 4, "output 64 of 64\n"),
    ("run|p.c|in|--", "p.c", "in", 4, "output 64 of 64\n"),
    ("run|p.c|--|-x", "p.c", "-x", 4, "output 64 of 64\n"),
    ("run|--|--help|-h", "--help", "-h", 4, "output 64 of 64\n"),
    (
        "run|--|--|--workers=9",
        "--",
        "--workers=9",
        4,
        "output 64 of 64\n",
    ),
    // options
    (
        "run|--workers|2|p.c|in",
        "p.c",
        "in",
        2,
        "output 64 of 64\n",
    ),
    ("run|p.c|--budget|5|in", "p.c", "in", 4, "output 5 of 64\n"),
    ("run|p.c|in|--control|6", "p.c", "in", 4, "output 6 of 6\n"),
    (
        "run|p.c|in|--workers=4",
        "p.c",
        "in",
        4,
        "output 64 of 64\n",
    ),
    (
        "run|--control=3|p.c|--budget|2|--workers=1|--|in",
        "p.c",
        "in",
        1,
        "output 2 of 3\n",
    ),
    // numbers
    (
        "run|p.c|in|--workers|1",
        "p.c",
        "in",
        1,
        "output 64 of 64\n",
    ),
    (
        "run|p.c|in|--workers|64",
        "p.c",
        "in",
        64,
        "output 64 of 64\n",
    ),
    ("run|p.c|in|--budget|0", "p.c", "in", 4, "output 0 of 64\n"),
    (
        "run|p.c|in|--budget|1000000000",
        "p.c",
        "in",
        4,
        "output 64 of 64\n",
    ),
    ("run|p.c|in|--control|0", "p.c", "in", 0, "output 0 of 0\n"),
    (
        "run|p.c|in|--control|1000000000",
        "p.c",
        "in",
        4,
        "output 64 of 64\n",
    ),
    (
        "run|p.c|in|--workers|+4",
        "p.c",
        "in",
        4,
        "output 64 of 64\n",
    ),
    (
        "run|p.c|in|--workers=+064",
        "p.c",
        "in",
        64,
        "output 64 of 64\n",
    ),
    (
        "run|p.c|in|--workers|0007",
        "p.c",
        "in",
        7,
        "output 64 of 64\n",
    ),
    (
        "run|p.c|in|--budget|0000000000000000000000000000007",
        "p.c",
        "in",
        4,
        "output 7 of 64\n",
    ),
];

#[test]
fn words_name_jobs(rt: HostRuntime) {
    for job in &JOBS {
        has_job(&rt, job);
    }
}

/// Words of `gen`, how many workers run its blocks, and the lines.
static GEN: [(&str, u32, &str); 4] = [
    (
        "gen|0|1",
        1,
        "seed 0 blocks 1\ninput 4 sum 325\noutput 4 sum 607\nstatus 0\n",
    ),
    (
        "gen|4294967295|65536",
        4,
        "seed 4294967295 blocks 65536\ninput 262144 sum 33388960\noutput 262144 sum 33467832\nstatus 0\n",
    ),
    (
        "gen|--workers=64|+7|00064",
        64,
        "seed 7 blocks 64\ninput 256 sum 32578\noutput 256 sum 32682\nstatus 0\n",
    ),
    (
        "gen|1|--workers|1|2",
        1,
        "seed 1 blocks 2\ninput 8 sum 1363\noutput 8 sum 1172\nstatus 0\n",
    ),
];

/// Asks that the words are of these bytes.
fn has_lines<R: Threads + Sync + AllocGlobal + Abort>(
    rt: &R,
    line: &str,
    workers: u32,
    lines: &str,
) {
    let words = words_in(rt, rt.alloc(), line);
    let gate = Meeting::of(workers);
    let left = call_through(rt, &words, MemFiles::new(rt.alloc()), ALL, ALL, &gate);
    has_left(rt, &left, lines.as_bytes(), "", 0);
    assert!(rt; gate.count() == workers, "{line}");
}

#[test]
fn words_name_blocks(rt: HostRuntime) {
    for (line, workers, lines) in &GEN {
        has_lines(&rt, *line, *workers, *lines);
    }
}
