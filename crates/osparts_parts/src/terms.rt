ghost use Rattle.std.specs.Prelude.{◌≡◌, ◌<◌, ◌^◌, IfErr, OnOk};
ghost use Rattle.osparts_parts.specs.Terms.{AreLawful, IsFirstBroken, overlap_in, part_limit, skip_in};

use crate::place::PartPlace;
use thiserror::Error;

/// How many bytes a part may have with its overlap and its state. It is what an input of one run may have.
pub const PART_LIMIT: u32 = 4_194_304;

/// On which terms an input is cut into parts, and their outputs are joined. All are numbers of bytes.
#[derive(Clone, Copy, Debug, PartialEq, Eq)]
pub struct Terms {
    /// How long a part is without its overlap. The last part may be shorter.
    pub part: u32,
    /// How many bytes before a part stand in front of it.
    pub overlap: u32,
    /// How many of the first bytes that a part writes are left out, in all parts but the first.
    pub skip: u32,
    /// How many of the last bytes that a part writes are no output but stand in front of the next part.
    pub state: u32,
}

/// Which rule the terms break.
#[derive(Clone, Copy, Debug, PartialEq, Eq, Error)]
pub enum TermsFault {
    /// A part has no bytes.
    #[error("a part has at least one byte")]
    EmptyPart,
    /// A part with its overlap and its state is longer than `PART_LIMIT`.
    #[error("a part with its overlap and its state has at most 4194304 bytes")]
    TooLarge,
    /// The overlap is as long as a part, or longer.
    #[error("an overlap is shorter than a part")]
    LongOverlap,
    /// The skip is as long as a part, or longer.
    #[error("a skip is shorter than a part")]
    LongSkip,
    /// There are both an overlap and a state.
    #[error("parts with a state have no overlap")]
    StateBesideOverlap,
}

impl Terms {
    /// Whether the terms are lawful, or else the first rule that they break.
    pub fn check(self) -> Result<(), TermsFault>
        ensures lawful { OnOk result (AreLawful self) }
        ensures broken { IfErr result (λ fault. IsFirstBroken self fault) }
    {
        if self.part == 0 {
            return Err(TermsFault::EmptyPart);
        }
        if u64::from(self.part) + u64::from(self.overlap) + u64::from(self.state)
            > u64::from(PART_LIMIT)
        {
            return Err(TermsFault::TooLarge);
        }
        if self.part <= self.overlap {
            return Err(TermsFault::LongOverlap);
        }
        if self.part <= self.skip {
            return Err(TermsFault::LongSkip);
        }
        if self.overlap > 0 && self.state > 0 {
            return Err(TermsFault::StateBesideOverlap);
        }
        Ok(())
    }

    /// How many bytes stand in front of a part in this place.
    pub(crate) fn overlap_in(self, place: PartPlace) -> usize
        ensures bytes { result ≡ overlap_in place self }
        ensures within { result < 2 ^ 32 }
    {
        match place {
            PartPlace::First => 0,
            PartPlace::Later => self.overlap as usize,
        }
    }

    /// How many of the first bytes that a part in this place writes are left out.
    pub(crate) fn skip_in(self, place: PartPlace) -> usize
        ensures bytes { result ≡ skip_in place self }
        ensures within { result < 2 ^ 32 }
    {
        match place {
            PartPlace::First => 0,
            PartPlace::Later => self.skip as usize,
        }
    }
}
