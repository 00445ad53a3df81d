ghost use Rattle.std.specs.Prelude.{◌≡◌, ◌<◌, ℕ, Some, length, slice_get};
ghost use Rattle.flow_core_epochs.specs.Epoch.{put_over};

use flow_core_laws::{Bodies, TaskEnd};
use os_io::Memory;
use std::alloc::Global;

/// The bodies of an epoch's frames: that of a frame is the body of its activation.
#[derive(Clone, Copy, Debug)]
pub struct FrameBodies<'r, B> {
    pub bodies: &'r B,
    pub frames: &'r [u32],
}

impl<'r, B: Bodies> Bodies for FrameBodies<'r, B> {
    ghost use Rattle.std.specs.Prelude.{◌<◌, length, slice_index};

    type Scratch = B::Scratch;

    ghost outcome = { λ self frame. B.outcome self.bodies.now (slice_index self.frames.now frame) };

    ghost takes = { λ self frame inputs outputs. (frame < length self.frames.now)
        × B.takes self.bodies.now (slice_index self.frames.now frame) inputs outputs };

    ghost fits = { λ self scratch. B.fits self.bodies.now scratch };

    fn scratch(&self, alloc: Global) -> Result<B::Scratch, Memory> {
        self.bodies.scratch(alloc)
    }

    fn run(
        &self,
        frame: u32,
        inputs: &[i32],
        outputs: &mut [i32],
        scratch: &mut B::Scratch,
    ) -> TaskEnd {
        self.bodies
            .run(self.frames[frame as usize], inputs, outputs, scratch)
    }
}

/// Puts the ends of frames over those of all activations.
pub fn put_over(ends: &mut [Option<TaskEnd>], frames: &[u32], run: &[Option<TaskEnd>])
    requires as_many { length run.now ≡ length frames.now }
    requires exist { (f a : ℕ) → slice_get frames.now f ≡ Some a → a < length ends.old }
    requires differ { (f g a : ℕ) → slice_get frames.now f ≡ Some a → slice_get frames.now g ≡ Some a → f ≡ g }
    ensures { ends.new ≡ put_over ends.old frames.now run.now (length ends.old) }
{
    for (number, activation) in frames.iter().enumerate() {
        ends[*activation as usize] = run[number];
    }
}
