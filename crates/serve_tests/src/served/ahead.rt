//! A file that counts the lines it gave, and a gate that compares them with the jobs that began.

use os_io::{Failed, Files};
use osrun_core::Gate;
use std::sync::atomic::{AtomicBool, AtomicU32, Ordering};

/// How many jobs wait at most, with the one that runs.
const WAITING: u32 = 16;

/// How many lines were given and how many jobs began, and whether once more lines than those of the jobs before and of the sixteen
/// that wait were given.
#[derive(Drop)]
pub(super) struct Counts {
    lines: AtomicU32,
    jobs: AtomicU32,
    too_far: AtomicBool,
}

impl Counts {
    pub(super) fn new() -> Counts {
        Counts {
            lines: AtomicU32::new(0),
            jobs: AtomicU32::new(0),
            too_far: AtomicBool::new(false),
        }
    }

    /// Whether `jobs` jobs began, and never too many lines were given.
    pub(super) fn were_in_bounds(&self, jobs: u32) -> bool {
        self.jobs.load(Ordering::SeqCst) == jobs && !self.too_far.load(Ordering::SeqCst)
    }
}

impl Gate for Counts {
    fn at(&self, _worker: u32, _frame: u32) {
        let before = self.jobs.fetch_add(1, Ordering::SeqCst);
        if self.lines.load(Ordering::SeqCst) > before.saturating_add(WAITING) {
            self.too_far.store(true, Ordering::SeqCst);
        }
    }
}

/// What each read gives.
const LINE: &[u8] = b"run first.c in.bin\n";

/// A file of which `left` jobs are still to be given, one line a read, whatever its name.
#[derive(Drop)]
pub(super) struct Lines<'c> {
    counts: &'c Counts,
    opens: u64,
    given: u64,
    left: u32,
}

impl<'c> Lines<'c> {
    pub(super) fn new(counts: &'c Counts, left: u32) -> Lines<'c> {
        Lines {
            counts,
            opens: 0,
            given: 0,
            left,
        }
    }
}

impl<'c> Files for Lines<'c> {
    ghost use Rattle.std.specs.Prelude.{None, true, refl};

    ghost faults = { λ _. 0 };

    ghost given = { λ s. s.given };

    ghost holds = { λ _ _. None };

    ghost rest = { λ _. None };

    ghost opens = { λ s. s.opens };

    ghost may = { λ _ _ _. true };

    ghost may_at_last = { λ _ _ _ _. refl };

    fn open(&mut self, _name: &str) -> Result<(), Failed> {
        self.opens = self.opens.saturating_add(1);
        self.given = 0;
        Ok(())
    }

    fn read(&mut self, buf: &mut [u8]) -> Result<usize, Failed> {
        let mut count = 0;
        if self.left > 0 && buf.len() >= LINE.len() {
            self.left -= 1;
            self.counts.lines.fetch_add(1, Ordering::SeqCst);
            buf[..LINE.len()].copy_from_slice(LINE);
            count = LINE.len();
        }
        self.given = self.given.saturating_add(count as u64);
        Ok(count)
    }
}
