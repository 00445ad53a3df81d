//! A place where a job and the reading of the next line wait for each other.

ghost use Rattle.std.specs.Prelude.{◌≤◌, ◌+◌, length};

use os_io::{Failed, Files};
use osrun_core::Gate;
use std::sync::atomic::{AtomicBool, Ordering};

/// The most turns for which either of them is held.
const TURNS: u32 = 500_000_000;

/// What came, and whether one of them was held for all turns.
#[derive(Drop)]
pub(super) struct Meeting {
    job: AtomicBool,
    line: AtomicBool,
    ran_out: AtomicBool,
}

impl Meeting {
    pub(super) fn new() -> Meeting {
        Meeting {
            job: AtomicBool::new(false),
            line: AtomicBool::new(false),
            ran_out: AtomicBool::new(false),
        }
    }

    /// Whether both came before the turns ran out.
    pub(super) fn was_held(&self) -> bool {
        self.job.load(Ordering::SeqCst)
            && self.line.load(Ordering::SeqCst)
            && !self.ran_out.load(Ordering::SeqCst)
    }

    /// Waits until the other came.
    fn wait_for(&self, other: &AtomicBool) {
        for _ in 0..TURNS {
            if other.load(Ordering::SeqCst) {
                return;
            }
        }
        self.ran_out.store(true, Ordering::SeqCst);
    }
}

/// A job is held until the read of the second line was begun.
impl Gate for Meeting {
    fn at(&self, _worker: u32, _frame: u32) {
        self.job.store(true, Ordering::SeqCst);
        self.wait_for(&self.line);
    }
}

/// What each read gives.
const LINE: &[u8] = b"run first.c in.bin\n";

/// A file of two jobs that gives one line a read, whatever its name. The second read is held until a job came.
#[derive(Drop)]
pub(super) struct TwoLines<'m> {
    meeting: &'m Meeting,
    opens: u64,
    given: u64,
    reads: u8,
}

impl<'m> TwoLines<'m> {
    pub(super) fn new(meeting: &'m Meeting) -> TwoLines<'m> {
        TwoLines {
            meeting,
            opens: 0,
            given: 0,
            reads: 0,
        }
    }
}

impl<'m> Files for TwoLines<'m> {
    ghost use Rattle.std.specs.Prelude.{None, true, refl};

    ghost faults = { λ _. 0 };

    ghost given = { λ s. s.given };

    ghost holds = { λ _ _. None };

    ghost rest = { λ _. None };

    ghost opens = { λ s. s.opens };

    ghost may = { λ _ _ _. true };

    ghost may_at_last = { λ _ _ _ _. refl };

    fn open(&mut self, _name: &str) -> Result<(), Failed> {
        self.opens = self.opens.saturating_add(1);
        self.given = 0;
        Ok(())
    }

    fn read(&mut self, buf: &mut [u8]) -> Result<usize, Failed> {
        if self.reads >= 2 || buf.len() < LINE.len() {
            return Ok(0);
        }
        if self.reads == 1 {
            self.meeting.line.store(true, Ordering::SeqCst);
            self.meeting.wait_for(&self.meeting.job);
        }
        self.reads += 1;
        buf[..LINE.len()].copy_from_slice(LINE);
        self.given = self.given.saturating_add(LINE.len() as u64);
        Ok(LINE.len())
    }
}
