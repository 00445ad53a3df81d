use crate::result::Budgets;
use flow_core_laws::{Activation, Bodies, TaskEnd};
use os_code::Code;
use os_io::Memory;
use std::alloc::Global;
use task_vm::{Scratch, run_task};

/// The bodies of the activations that the control program of a code has created so far, by their numbers in the run. The list
/// has only those from the number `first` on: all before them have ended, and aren't run again.
#[derive(Clone, Copy)]
pub(crate) struct OpenBodies<'r> {
    pub code: &'r Code,
    /// How many elements the input has.
    pub input_len: u32,
    pub budgets: Budgets,
    /// How many activations were created.
    pub count: u32,
    /// The number of the first activation of the list.
    pub first: u32,
    pub activations: &'r [Activation],
}

impl Bodies for OpenBodies<'_> {
    ghost use Rattle.os_code.specs.Codes.{parts_of};
    ghost use Rattle.epoch_run_bodies.specs.Frames.{TakesFrame, frame_outcome};
    ghost use Rattle.task_vm.specs.Space.{IsMadeFor};
    ghost use Rattle.epoch_run.specs.Bodies.{IsAmong, all_of};

    type Scratch = Scratch;

    ghost outcome = { λ bodies. frame_outcome (parts_of bodies.code.now) (all_of bodies) bodies.budgets.task };

    ghost takes = { λ bodies frame inputs outputs. TakesFrame (parts_of bodies.code.now) (all_of bodies) bodies.budgets.task frame inputs outputs
        × IsAmong bodies frame };

    ghost fits = { λ bodies scratch. IsMadeFor (parts_of bodies.code.now) scratch };

    fn scratch(&self, alloc: Global) -> Result<Scratch, Memory> {
        Scratch::new(alloc, self.code)
    }

    fn run(
        &self,
        frame: u32,
        inputs: &[i32],
        outputs: &mut [i32],
        scratch: &mut Scratch,
    ) -> TaskEnd {
        run_task(
            self.code,
            &self.activations[(frame - self.first) as usize],
            inputs,
            outputs,
            scratch,
            self.budgets.task,
        )
    }
}
