use os_io::{MemFiles, MemSink, Memory};
use os_serve::serve_words;
use osrun_core::NoGate;
use std::alloc::Global;
use std::process::Abort;
use std::thread::Threads;

/// It reverses a window of four bytes.
pub(super) const FIRST: &str = r"int main(void) {
    int a[4], b[4];
    #pragma omp task input(osin >> a[4]) output(osout << b[4])
    { b[0] = a[3]; b[1] = a[2]; b[2] = a[1]; b[3] = a[0]; }
}
";

/// It divides 100 by each byte.
const DIVIDE: &str = r"int main(void) {
    int i;
    for (i = 0; i < osin_len; i++) {
        int x, y;
        #pragma omp task input(osin >> x) output(osout << y)
        y = 100 / x;
    }
}
";

/// How many bytes a program may have.
const PROGRAM_LIMIT: usize = 262_144;

/// The files that jobs may name: two programs, one text that is none, one that is too long, and two inputs.
fn files(alloc: Global) -> Result<MemFiles, Memory> {
    let mut files = MemFiles::new(alloc);
    files.add("first.c", FIRST.as_bytes())?;
    files.add("in.bin", &[1, 2, 3, 4])?;
    files.add("divide.c", DIVIDE.as_bytes())?;
    files.add("gap.bin", &[2, 0, 5])?;
    files.add("bad.c", b"int main(void) { y = ; }\n")?;
    let mut long = Vec::new(alloc);
    long.resize(PROGRAM_LIMIT + 1, b' ')?;
    files.add("long.c", long.as_slice())?;
    Ok(files)
}

pub(super) fn small_files(rt: &impl Abort, alloc: Global) -> MemFiles {
    files(alloc).expect(rt, "memory")
}

/// The file `jobs`.
pub(super) fn jobs_of(rt: &impl Abort, alloc: Global, jobs: &[u8]) -> MemFiles {
    let mut files = MemFiles::new(alloc);
    files.add("jobs", jobs).expect(rt, "memory");
    files
}

/// What a call of the server left.
#[derive(Drop)]
pub(super) struct Left {
    pub(super) status: u8,
    pub(super) out: Vec<u8>,
    pub(super) report: Vec<u8>,
}

/// The words that ask for the server of the jobs of a file.
pub(super) fn serving(rt: &impl Abort, alloc: Global) -> [String; 2] {
    [
        String::from_str(alloc, "serve").expect(rt, "memory"),
        String::from_str(alloc, "jobs").expect(rt, "memory"),
    ]
}

/// A sink that takes at most `room` bytes in all, and at most `most` in a call.
pub(super) fn sink(rt: &impl Abort, alloc: Global, room: u32, most: u32) -> MemSink {
    MemSink::new(alloc, room, most).expect(rt, "memory")
}

/// Serves the jobs of a file, where the output takes so.
pub(super) fn serve_to<R: Threads + Sync + AllocGlobal + Abort>(
    rt: &R,
    mut jobs: MemFiles,
    mut out: MemSink,
) -> Left {
    let alloc = rt.alloc();
    let words = serving(rt, alloc);
    let mut files = small_files(rt, alloc);
    let mut report = sink(rt, alloc, 64, 64);
    let status = serve_words(
        rt,
        alloc,
        &words,
        &mut jobs,
        &mut files,
        &mut out,
        &mut report,
        &NoGate,
    );
    what_was_left(rt, alloc, status, &out, &report)
}

fn what_was_left(
    rt: &impl Abort,
    alloc: Global,
    status: u8,
    out: &MemSink,
    report: &MemSink,
) -> Left {
    Left {
        status,
        out: Vec::from_slice(alloc, out.bytes()).expect(rt, "memory"),
        report: Vec::from_slice(alloc, report.bytes()).expect(rt, "memory"),
    }
}

/// Serves the jobs of a file, where the output takes whatever comes.
pub(super) fn serve<R: Threads + Sync + AllocGlobal + Abort>(rt: &R, jobs: MemFiles) -> Left {
    let out = sink(rt, rt.alloc(), 65_536, 65_536);
    serve_to(rt, jobs, out)
}

/// Asks that a call left this output, report and status.
pub(super) fn has_left(rt: &impl Abort, left: &Left, out: &[u8], report: &str, status: u8) {
    assert!(rt; left.out.as_slice() == out);
    assert!(rt; left.report.as_slice() == report.as_bytes());
    assert!(rt; left.status == status);
}
