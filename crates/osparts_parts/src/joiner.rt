ghost use Rattle.std.specs.Prelude.{◌≡◌, ◌≤◌, ◌<◌, ℕ, List, [], ◌∷◌, ◌++◌, length, IfOk, OnOk, OnErr};
ghost use Rattle.osparts_parts.specs.Joined.{joined, last_bytes, needed_in};
ghost use Rattle.osparts_parts.specs.Progress.{HasJoined};

use crate::place::PartPlace;
use crate::terms::Terms;
use thiserror::Error;

/// Why an output can't be joined to those before it.
#[derive(Clone, Copy, Debug, PartialEq, Eq, Error)]
pub enum JoinError {
    /// The part wrote fewer bytes than its skip and its state have.
    #[error("the part wrote fewer bytes than its skip and its state have")]
    ShortOutput,
}

/// What a part wrote, without its skip.
#[derive(Clone, Copy, Debug)]
pub struct Joint<'a> {
    /// What the output adds to those before it.
    pub kept: &'a [u8],
    /// What stands in front of the next part.
    pub state: &'a [u8],
}

/// Takes the skip and the state off the outputs of parts, one after the other. It copies nothing.
#[derive(Clone, Copy, Debug)]
pub struct Joiner {
    pub(crate) terms: Terms,
    pub(crate) place: PartPlace,
}

impl Joiner {
    /// A joiner that has no output yet.
    pub fn new(terms: Terms) -> Joiner
        ensures joined { HasJoined result [] }
        ensures terms { result.terms ≡ terms }
    {
        Joiner {
            terms,
            place: PartPlace::First,
        }
    }

    /// Takes the skip and the state off the next output. A `JoinError` leaves the joiner as it was.
    pub fn join<'a>(&mut self, output: &'a [u8]) -> Result<Joint<'a>, JoinError>
        // What is kept is what the output adds to those that were joined before.
        ensures joins { (outputs : List (List ℕ)) → HasJoined self.old outputs → IfOk result (λ joint.
            joined (outputs ++ output.now ∷ []) self.old.terms ≡ joined outputs self.old.terms ++ joint.kept.now) }
        ensures next { (outputs : List (List ℕ)) → HasJoined self.old outputs → OnOk result (HasJoined self.new (outputs ++ output.now ∷ [])) }
        // The state that the next part is given.
        ensures state { IfOk result (λ joint. joint.state.now ≡ last_bytes self.old.terms.state output.now) }
        // When the output is too short.
        ensures long { OnOk result (needed_in self.old.place self.old.terms ≤ length output.now) }
        ensures short { OnErr result (length output.now < needed_in self.old.place self.old.terms) }
        ensures err { OnErr result (self.new ≡ self.old) }
        ensures terms { self.new.terms ≡ self.old.terms }
    {
        let skip = self.terms.skip_in(self.place);
        let state = self.terms.state as usize;
        if output.len() < skip + state {
            return Err(JoinError::ShortOutput);
        }
        let past = output.len() - state;
        self.place = PartPlace::Later;
        Ok(Joint {
            kept: &output[skip..past],
            state: &output[past..],
        })
    }
}
