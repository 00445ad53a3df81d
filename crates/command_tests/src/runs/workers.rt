//! That the job's workers run the activations, and that each passes the gate.

use super::calls::{ALL, call_through, files_of};
use super::has_left;
use super::meeting::Meeting;
use kernels::INVERT;
use osrun_core::Gate;
use std::sync::atomic::{AtomicU32, Ordering};

/// What a gate saw: how often it was called, the workers that it was told, and the first 32 frames, each as a bit.
#[derive(Drop)]
struct Seen {
    calls: AtomicU32,
    workers: Meeting,
    frames: AtomicU32,
}

/// The bit of a number, if it is one of the first 32.
fn bit(number: u32) -> u32 {
    1u32.checked_shl(number).unwrap_or(0)
}

impl Gate for Seen {
    fn at(&self, worker: u32, frame: u32) {
        self.calls.fetch_add(1, Ordering::SeqCst);
        self.frames.fetch_or(bit(frame), Ordering::SeqCst);
        self.workers.at(worker, frame);
    }
}

#[test]
fn two_workers_run_each_activation_once(rt: HostRuntime) {
    let seen = Seen {
        calls: AtomicU32::new(0),
        workers: Meeting::of(2),
        frames: AtomicU32::new(0),
    };
    // Eight blocks of four bytes.
    let input = [1; 32];
    let words = ["run", "p.c", "in", "--workers", "2"];
    let files = files_of(&rt, rt.alloc(), INVERT.as_bytes(), &input);
    let left = call_through(&rt, &words, files, ALL, ALL, &seen);
    has_left(&rt, &left, &[254; 32], "control done\noutput 32 of 32\n", 0);
    assert!(rt; seen.calls.load(Ordering::SeqCst) == 8);
    assert!(rt; seen.frames.load(Ordering::SeqCst) == 0xff);
    assert!(rt; seen.workers.count() == 2);
}
