//! A gate at which a job's workers meet, so that none of them can run all activations before the others came.

use osrun_core::Gate;
use std::sync::atomic::{AtomicU32, AtomicU64, Ordering};

/// The most turns for which a worker is held.
const TURNS: u32 = 500_000_000;

/// Counts the workers that came, each once, and holds each of them until `awaited` did.
#[derive(Drop)]
pub(super) struct Meeting {
    awaited: u32,
    count: AtomicU32,
    /// A bit for each worker that came.
    came: AtomicU64,
}

impl Meeting {
    /// A gate that waits for `awaited` workers.
    pub(super) fn of(awaited: u32) -> Meeting {
        Meeting {
            awaited,
            count: AtomicU32::new(0),
            came: AtomicU64::new(0),
        }
    }

    /// How many different workers came.
    pub(super) fn count(&self) -> u32 {
        self.count.load(Ordering::SeqCst)
    }
}

impl Gate for Meeting {
    fn at(&self, worker: u32, _frame: u32) {
        let bit = 1u64.checked_shl(worker).unwrap_or(0);
        if self.came.fetch_or(bit, Ordering::SeqCst) & bit == 0 {
            self.count.fetch_add(1, Ordering::SeqCst);
        }
        for _ in 0..TURNS {
            if self.count() >= self.awaited {
                return;
            }
        }
    }
}
