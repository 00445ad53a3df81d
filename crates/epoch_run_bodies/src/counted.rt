use flow_core_laws::{Bodies, TaskEnd};
use os_io::Memory;
use std::alloc::Global;
use std::sync::atomic::{AtomicU64, Ordering};
use task_vm::Scratch;

/// A body of fewer steps isn't counted, so that short ones, run by several threads, don't wait for one another at the sum.
pub const COUNTED: u64 = 256;

/// Bodies that run on the machine, beside a sum of the steps that they take: of those with `COUNTED` steps or more.
#[derive(Clone, Copy)]
pub struct CountedBodies<'r, B> {
    pub bodies: &'r B,
    /// The sum so far, as far as the number goes, after which it begins at 0 again.
    pub steps: &'r AtomicU64,
}

impl<'r, B: Bodies<Scratch = Scratch>> Bodies for CountedBodies<'r, B> {
    type Scratch = Scratch;

    ghost outcome = { λ self. B.outcome self.bodies.now };

    ghost takes = { λ self. B.takes self.bodies.now };

    ghost fits = { λ self. B.fits self.bodies.now };

    fn scratch(&self, alloc: Global) -> Result<Scratch, Memory> {
        self.bodies.scratch(alloc)
    }

    fn run(
        &self,
        frame: u32,
        inputs: &[i32],
        outputs: &mut [i32],
        scratch: &mut Scratch,
    ) -> TaskEnd {
        let end = self.bodies.run(frame, inputs, outputs, scratch);
        let steps = scratch.steps();
        if steps >= COUNTED {
            self.steps.fetch_add(steps, Ordering::Relaxed);
        }
        end
    }
}
