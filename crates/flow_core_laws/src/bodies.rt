ghost use Rattle.std.specs.Prelude.{◌≡◌, ℕ, ℤ, List, length, IfOk};
ghost use Rattle.flow_core_laws.specs.declared.outcome.Outcome.{Outcome};

use crate::task_end::TaskEnd;
use os_io::Memory;
use std::alloc::Global;

/// The bodies of the activations of a plan, by frame number.
///
/// `outcome` is what a frame's body does with its inputs, `takes` says whether `run` accepts a frame
/// with these numbers of inputs and outputs, and `fits` whether a scratch serves these bodies.
pub trait Bodies: Sync {
    /// The memory that `run` works in.
    type Scratch: Send + Drop;

    ghost outcome: { Self → ℕ → List ℤ → Outcome };

    ghost takes: { Self → ℕ → ℕ → ℕ → Type 0 };

    ghost fits: { Self → Self.Scratch → Type 0 };

    /// Makes the memory that `run` works in.
    fn scratch(&self, alloc: Global) -> Result<Self::Scratch, Memory>
        ensures { IfOk result (fits self.now) };

    /// Runs a frame's body on the values of its inputs, of which none is poison. At entry the outputs hold
    /// anything, and after an end that isn't `Done` too.
    fn run(
        &self,
        frame: u32,
        inputs: &[i32],
        outputs: &mut [i32],
        scratch: &mut Self::Scratch,
    ) -> TaskEnd
        requires taken { takes self.now frame (length inputs.now) (length outputs.old) }
        requires fitting { fits self.now scratch.old }
        ensures end { result ≡ (outcome self.now frame inputs.now).end }
        ensures outputs { result ≡ TaskEnd.Done
            → outputs.new ≡ (outcome self.now frame inputs.now).outputs }
        ensures fits_again { fits self.now scratch.new };
}
