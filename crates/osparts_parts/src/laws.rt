//! Laws of parts. Each is a call that does nothing and ensures its law.

ghost use Rattle.std.specs.Prelude.{◌≡◌, ℕ, List, ◌++◌, length, take};
ghost use Rattle.osparts_parts.specs.Laws.{InputsStay, OverlapsAreEnds, PartsAreGivenStates, PartsAreShort, PartsAreTheInput, StatesAreEnds};
ghost use Rattle.osparts_parts.specs.Laws.{PlainOutputsAreJoined, PlainPartsAreTheInput, ShortInputsAreOnePart};
ghost use Rattle.osparts_parts.specs.Parts.{parts_of};
ghost use Rattle.osparts_parts.specs.Progress.{HasGiven};

use crate::buffer::PartBuffer;

/// Each byte of the input stands in one part past that part's overlap, in order.
pub fn parts_are_the_input()
    ensures parts { PartsAreTheInput }
    ensures plain { PlainPartsAreTheInput }
    ensures one { ShortInputsAreOnePart }
{}

/// A part has at most as many bytes as its size and its overlap, and its overlap is the end of the part before it.
pub fn parts_are_short()
    ensures short { PartsAreShort }
    ensures ends { OverlapsAreEnds }
{}

/// The parts that a buffer has given are the first ones of the input, whichever bytes come yet.
pub fn given_parts_stay(buffer: &PartBuffer)
    ensures { (pushed more : List ℕ) (parts : List (List ℕ)) → HasGiven buffer.now pushed parts →
        parts ≡ take (length parts) (parts_of (pushed ++ more) buffer.now.terms) }
{}

/// Outputs without skip and state are joined as they are.
pub fn plain_outputs_are_joined()
    ensures { PlainOutputsAreJoined }
{}

/// A part is given the end of what the part before it wrote, whatever is written later.
pub fn states_are_handed_on()
    ensures ends { StatesAreEnds }
    ensures given { PartsAreGivenStates }
    ensures stay { InputsStay }
{}
