use os_io::{MemFiles, MemSink, Memory};
use osrun_core::{Gate, NoGate, run_words};
use std::alloc::Global;
use std::process::Abort;
use std::thread::Threads;

/// How often and how much a sink takes, and the call at which it fails.
#[derive(Clone, Copy)]
pub(super) struct Taking {
    pub(super) room: u32,
    pub(super) most: u32,
    pub(super) failing: Option<u64>,
}

/// Takes all bytes of each call, with ample room.
pub(super) const ALL: Taking = Taking {
    room: 4_194_304,
    most: 4_194_304,
    failing: None,
};

/// Takes at most `most` bytes a call, until the call numbered `call` fails.
pub(super) fn failing(most: u32, call: u64) -> Taking {
    Taking {
        room: 64,
        most,
        failing: Some(call),
    }
}

/// What a call of the command left.
#[derive(Drop)]
pub(super) struct Left {
    pub(super) status: u8,
    pub(super) out: Vec<u8>,
    pub(super) report: Vec<u8>,
}

fn sink(rt: &impl Abort, alloc: Global, taking: Taking) -> MemSink {
    let mut sink = MemSink::new(alloc, taking.room, taking.most).expect(rt, "memory");
    if let Some(call) = taking.failing {
        sink.fail_at(call).expect(rt, "memory");
    }
    sink
}

fn words_of(rt: &impl Abort, alloc: Global, words: &[&str]) -> Vec<String> {
    let mut owned = Vec::new(alloc);
    for word in words {
        let word = String::from_str(alloc, word).expect(rt, "memory");
        owned.push(word).expect(rt, "memory");
    }
    owned
}

/// Calls the command over two files `p.c` and `in`, of which the call with the number `failing` fails.
pub(super) fn call<R: Threads + Sync + AllocGlobal + Abort>(
    rt: &R,
    words: &[&str],
    program: &[u8],
    input: &[u8],
    failing: Option<u64>,
    out: Taking,
    report: Taking,
) -> Left {
    let mut files = files_of(rt, rt.alloc(), program, input);
    if let Some(call) = failing {
        files.fail_at(call).expect(rt, "memory");
    }
    call_through(rt, words, files, out, report, &NoGate)
}

/// The files `p.c` and `in`.
pub(super) fn files_of(rt: &impl Abort, alloc: Global, program: &[u8], input: &[u8]) -> MemFiles {
    two_files(alloc, program, input).expect(rt, "memory")
}

fn two_files(alloc: Global, program: &[u8], input: &[u8]) -> Result<MemFiles, Memory> {
    let mut files = MemFiles::new(alloc);
    files.add("p.c", program)?;
    files.add("in", input)?;
    Ok(files)
}

/// Calls the command over files, with a gate for its workers.
pub(super) fn call_through<R: Threads + Sync + AllocGlobal + Abort, G: Gate>(
    rt: &R,
    words: &[&str],
    mut files: MemFiles,
    out: Taking,
    report: Taking,
    gate: &G,
) -> Left {
    let alloc = rt.alloc();
    let words = words_of(rt, alloc, words);
    let mut out = sink(rt, alloc, out);
    let mut report = sink(rt, alloc, report);
    let status = run_words(rt, alloc, &words, &mut files, &mut out, &mut report, gate);
    what_was_left(rt, alloc, status, &out, &report)
}

fn what_was_left(
    rt: &impl Abort,
    alloc: Global,
    status: u8,
    out: &MemSink,
    report: &MemSink,
) -> Left {
    Left {
        status,
        out: Vec::from_slice(alloc, out.bytes()).expect(rt, "memory"),
        report: Vec::from_slice(alloc, report.bytes()).expect(rt, "memory"),
    }
}
