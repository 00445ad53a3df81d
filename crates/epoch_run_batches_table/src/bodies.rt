//! The bodies of the frames of batches.

ghost use Rattle.epoch_run_batches.specs.Workload.{IsWorkload};
ghost use Rattle.epoch_run_batches_table.specs.Running.{MayRun};

use crate::batch::Batch;
use epoch_run_batches::{
    Buffers, Local, LocalBodies, Meaning, SlotContent, Sources, Streams, Workload, fill_slot,
    run_batch,
};
use flow_core_laws::{Bodies, Plan, TaskEnd};
use os_io::Memory;
use std::alloc::Global;
use std::marker::PhantomData;
use std::sync::OnceLock;
use stream_match_layouts::Layout;

/// The bodies of batches: that of a frame runs its batch and fills its slot. To the table each is Done, and hands on tokens.
#[derive(Clone, Copy)]
pub(crate) struct BatchBodies<'r, J: Meaning, B: Bodies> {
    pub alloc: Global,
    pub plan: &'r Plan,
    /// The number of the first activation whose body is at hand.
    pub first: u32,
    pub layout: &'r Layout,
    pub bodies: &'r B,
    pub input: &'r [u8],
    /// What the streams held before all batches.
    pub before: &'r Streams,
    pub batches: &'r [Batch],
    /// A slot for each batch.
    pub slots: &'r [OnceLock<SlotContent<J>>],
}

/// The memory that batches are run in.
#[derive(Drop)]
pub(crate) struct BatchScratch<S> {
    pub buffers: Buffers,
    pub scratch: S,
}

impl<'r, J: Meaning + Send + Sync, B: Bodies> Bodies for BatchBodies<'r, J, B> {
    ghost use Rattle.std.specs.Prelude.{◌≡◌};
    ghost use Rattle.flow_core_laws.specs.Plans.{frame_at};
    ghost use Rattle.epoch_run_batches_table.specs.Tokens.{token_outcome};

    type Scratch = BatchScratch<B::Scratch>;

    ghost outcome = { λ s. token_outcome s.plan.now };

    ghost takes = { λ s frame inputs outputs. (outputs ≡ (frame_at s.plan.now frame).outputs)
        × MayRun J.run s.first s.layout.now (B.outcome s.bodies.now) (B.takes s.bodies.now) s.input.now s.before.now };

    ghost fits = { λ s scratch. B.fits s.bodies.now scratch.scratch };

    fn scratch(&self, alloc: Global) -> Result<BatchScratch<B::Scratch>, Memory> {
        Ok(BatchScratch {
            buffers: Buffers::new(alloc),
            scratch: self.bodies.scratch(alloc)?,
        })
    }

    fn run(
        &self,
        frame: u32,
        _inputs: &[i32],
        outputs: &mut [i32],
        scratch: &mut BatchScratch<B::Scratch>,
    ) -> TaskEnd {
        outputs.fill(0);
        let bodies = Local {
            bodies: self.bodies,
        };
        let workload = Workload {
            first: self.first,
            layout: self.layout,
            bodies: &bodies,
        };
        let sources = Sources {
            input: self.input,
            before: self.before,
            slots: self.slots,
        };
        run_into_slot(
            self.alloc,
            &workload,
            &sources,
            self.batches,
            frame,
            &mut scratch.buffers,
            &mut scratch.scratch,
        );
        TaskEnd::Done
    }
}

/// Runs a batch and fills its slot. Where there is no memory for what it comes to, the slot stays empty.
fn run_into_slot<J: Meaning, B: LocalBodies>(
    alloc: Global,
    workload: &Workload<'_, B>,
    sources: &Sources<'_, J>,
    batches: &[Batch],
    number: u32,
    buffers: &mut Buffers,
    scratch: &mut B::Scratch,
)
    requires workload { IsWorkload J.run workload.now.first workload.now.layout.now (B.outcome workload.now.bodies.now) (B.takes workload.now.bodies.now) }
    requires fitting { B.fits workload.now.bodies.now scratch.old }
    ensures { B.fits workload.now.bodies.now scratch.new }
{
    let Some(batch) = batches.get(number as usize) else {
        return;
    };
    let Some(slot) = sources.slots.get(number as usize) else {
        return;
    };
    let outcome = run_batch(
        alloc,
        workload,
        sources,
        batch.numbers.as_slice(),
        batch.from.as_slice(),
        buffers,
        scratch,
    );
    if let Ok(outcome) = outcome {
        fill_slot(
            slot,
            SlotContent {
                outcome,
                of: PhantomData,
            },
        );
    }
}
