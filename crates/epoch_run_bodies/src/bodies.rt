use flow_core_laws::{Activation, Bodies, TaskEnd};
use os_code::Code;
use os_io::Memory;
use std::alloc::Global;
use task_vm::{Scratch, run_task};

/// The bodies of activations that fit a code, in control order: that of frame f is the task of activation f.
#[derive(Clone, Copy, Debug)]
pub struct TaskBodies<'r> {
    pub code: &'r Code,
    pub activations: &'r [Activation],
    /// How many turns each activation may take, up to 1,000,000,000.
    pub budget: u64,
}

impl Bodies for TaskBodies<'_> {
    ghost use Rattle.os_code.specs.Codes.{parts_of};
    ghost use Rattle.epoch_run_bodies.specs.Frames.{TakesFrame, frame_outcome};
    ghost use Rattle.task_vm.specs.Space.{IsMadeFor};

    type Scratch = Scratch;

    ghost outcome = { λ bodies. frame_outcome (parts_of bodies.code.now) bodies.activations.now bodies.budget };

    ghost takes = { λ bodies. TakesFrame (parts_of bodies.code.now) bodies.activations.now bodies.budget };

    ghost fits = { λ bodies scratch. IsMadeFor (parts_of bodies.code.now) scratch };

    fn scratch(&self, alloc: Global) -> Result<Scratch, Memory> {
        Scratch::new(alloc, self.code)
    }

    fn run(
        &self,
        frame: u32,
        inputs: &[i32],
        outputs: &mut [i32],
        scratch: &mut Scratch,
    ) -> TaskEnd {
        run_task(
            self.code,
            &self.activations[frame as usize],
            inputs,
            outputs,
            scratch,
            self.budget,
        )
    }
}
