//! No more lines are read than may wait.

use super::ahead::{Counts, Lines};
use super::calls::{serving, sink, small_files};
use os_serve::serve_words;

/// How many jobs there are.
const JOBS: u32 = 40;

#[test]
fn sixteen_jobs_wait_at_most(rt: HostRuntime) {
    let alloc = rt.alloc();
    let words = serving(&rt, alloc);
    let counts = Counts::new();
    let mut jobs = Lines::new(&counts, JOBS);
    let mut files = small_files(&rt, alloc);
    let mut out = sink(&rt, alloc, 65_536, 65_536);
    let mut report = sink(&rt, alloc, 64, 64);
    let status = serve_words(
        &rt,
        alloc,
        &words,
        &mut jobs,
        &mut files,
        &mut out,
        &mut report,
        &counts,
    );
    assert!(rt; status == 0);
    assert!(rt; counts.were_in_bounds(JOBS));
}
