//! Texts, and what they are read as.

use std::alloc::Global;
use std::process::Abort;
use std::test::Fail;
use trace_replay_text::{TraceError, print_trace, read_trace};

/// What a text is read as.
#[derive(Clone, Copy, Debug, PartialEq, Eq)]
enum Answer {
    /// A trace of this many workers, of which the same text is written.
    Workers(usize),
    /// One of which another text is written.
    Other,
    /// None: the first line that isn't one of a trace.
    Line(u32),
    Memory,
}

/// What a text is read as.
fn answer_of(alloc: Global, text: &[u8]) -> Answer {
    let lists = match read_trace(alloc, text) {
        Ok(lists) => lists,
        Err(TraceError::Line(line)) => return Answer::Line(line),
        Err(TraceError::Memory) => return Answer::Memory,
    };
    match print_trace(alloc, lists.as_slice()) {
        Ok(again) => {
            if again.as_slice() == text {
                Answer::Workers(lists.len())
            } else {
                Answer::Other
            }
        }
        Err(_) => Answer::Memory,
    }
}

static TEXTS: [(&[u8], Answer); 24] = [
    (b"worker 0\n", Answer::Workers(1)),
    (b"worker 0 1 0\n", Answer::Workers(1)),
    (b"worker 0 0\nworker 1 1\n", Answer::Workers(2)),
    (
        b"worker 0\nworker 1 4294967295 10\nworker 2\n",
        Answer::Workers(3),
    ),
    // no line at all
    (b"", Answer::Line(1)),
    (b"\n", Answer::Line(1)),
    // without its line feed
    (b"worker 0 1 0", Answer::Line(1)),
    (b"worker 0\nworker 1", Answer::Line(2)),
    // another worker's line, or none's
    (b"worker 1\n", Answer::Line(1)),
    (b"worker\n", Answer::Line(1)),
    (b"worker 0\nworker 0\n", Answer::Line(2)),
    (b"worker 0\nworker 1\nworker 3\n", Answer::Line(3)),
    (b"workers 0\n", Answer::Line(1)),
    (b"Worker 0\n", Answer::Line(1)),
    // an empty line
    (b"worker 0\n\n", Answer::Line(2)),
    // spaces that are too many
    (b"worker  0\n", Answer::Line(1)),
    (b"worker 0 \n", Answer::Line(1)),
    (b"worker 0 1  2\n", Answer::Line(1)),
    (b" worker 0\n", Answer::Line(1)),
    // what is no number of a frame
    (b"worker 0 01\n", Answer::Line(1)),
    (b"worker 0 +1\n", Answer::Line(1)),
    (b"worker 0 -1\n", Answer::Line(1)),
    (b"worker 0 4294967296\n", Answer::Line(1)),
    (b"worker 0 1\r\n", Answer::Line(1)),
];

/// Whether each text is read as its row says.
fn are_read(alloc: Global, texts: &[(&[u8], Answer)]) -> bool {
    for (text, answer) in texts {
        if answer_of(alloc, text) != *answer {
            return false;
        }
    }
    true
}

#[test]
fn reads_traces_and_tells_the_first_wrong_line(rt: HostRuntime) -> Result<(), Fail> {
    assert!(rt; are_read(rt.alloc(), &TEXTS));
    Ok(())
}

#[test]
fn reads_the_frames_of_each_worker(rt: HostRuntime) -> Result<(), Fail> {
    let lists = read_trace(rt.alloc(), b"worker 0 1 0\nworker 1\nworker 2 4294967295\n")?;
    let lists = lists.as_slice();
    assert!(rt; lists.len() == 3);
    assert!(rt; lists[0].as_slice() == [1, 0].as_slice());
    assert!(rt; lists[1].len() == 0);
    assert!(rt; lists[2].as_slice() == [4294967295].as_slice());
    Ok(())
}

/// The lines of as many workers, none of whom ran a frame.
fn idle(rt: &impl Abort, alloc: Global, workers: u32) -> String {
    let mut text = String::new(alloc);
    for worker in 0..workers {
        writeln!(text, "worker {worker}").expect(rt, "memory");
    }
    text
}

/// Asks that the lines of `workers` workers are read as `answer` says.
fn is_read(rt: &impl Abort, alloc: Global, workers: u32, answer: Answer) {
    let text = idle(rt, alloc, workers);
    assert!(rt; answer_of(alloc, text.as_bytes()) == answer);
}

#[test]
fn takes_up_to_64_workers(rt: HostRuntime) {
    is_read(&rt, rt.alloc(), 64, Answer::Workers(64));
    is_read(&rt, rt.alloc(), 65, Answer::Line(65));
    is_read(&rt, rt.alloc(), 66, Answer::Line(65));
}
