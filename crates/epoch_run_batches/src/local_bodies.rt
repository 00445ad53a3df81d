use flow_core_laws::{Bodies, TaskEnd};

/// The bodies of activations by their numbers, as one thread runs them: `Bodies` without what lets threads share them.
pub trait LocalBodies {
    ghost use Rattle.std.specs.Prelude.{◌≡◌, ℕ, ℤ, List, length};
    ghost use Rattle.flow_core_laws.specs.declared.outcome.Outcome.{Outcome};
    ghost use Rattle.flow_core_laws.specs.declared.task_end.TaskEnd.TheVariants.{Done};

    /// The memory that `run` works in.
    type Scratch;

    ghost outcome: { Self → ℕ → List ℤ → Outcome };

    ghost takes: { Self → ℕ → ℕ → ℕ → Type 0 };

    ghost fits: { Self → Self.Scratch → Type 0 };

    /// Runs the body of an activation on the values of its inputs, as `run` of `Bodies` does.
    fn run(
        &self,
        number: u32,
        inputs: &[i32],
        outputs: &mut [i32],
        scratch: &mut Self::Scratch,
    ) -> TaskEnd
        requires taken { takes self.now number (length inputs.now) (length outputs.old) }
        requires fitting { fits self.now scratch.old }
        ensures end { result ≡ (outcome self.now number inputs.now).end }
        ensures outputs { result ≡ Done → outputs.new ≡ (outcome self.now number inputs.now).outputs }
        ensures fits_again { fits self.now scratch.new };
}

/// Bodies that threads share, as one of them runs them.
#[derive(Clone, Copy, Debug)]
pub struct Local<'r, B> {
    pub bodies: &'r B,
}

impl<'r, B: Bodies> LocalBodies for Local<'r, B> {
    type Scratch = B::Scratch;

    ghost outcome = { λ self. B.outcome self.bodies.now };

    ghost takes = { λ self. B.takes self.bodies.now };

    ghost fits = { λ self. B.fits self.bodies.now };

    fn run(
        &self,
        number: u32,
        inputs: &[i32],
        outputs: &mut [i32],
        scratch: &mut B::Scratch,
    ) -> TaskEnd {
        self.bodies.run(number, inputs, outputs, scratch)
    }
}
