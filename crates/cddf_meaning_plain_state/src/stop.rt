ghost use Rattle.std.specs.Prelude.{◌≡◌};
ghost use Rattle.cddf_meaning.specs.declared.ending.Ending.TheVariants as endings;
ghost use Rattle.cddf_meaning_plain_state.specs.declared.stop.Stop.TheVariants as stops;

use c_int::Trap;
use cddf_meaning::Ending;
use os_io::Memory;
use std::alloc::{AllocError, AllocFailed};

/// Why an evaluation gives nothing.
#[derive(Clone, Copy, Debug, PartialEq, Eq)]
pub enum Stop {
    /// The body ends there: by a trap, by its budget or by a limit.
    Ended(Ending),
    /// Memory could not be had. It is also the answer to a tree that no text means: with a number past an `int`, or with
    /// more streams than a program declares.
    Memory,
}

impl Stop {
    /// A trap, with its line.
    pub(crate) fn trap(trap: Trap, line: u32) -> Stop
        ensures { result ≡ stops.Ended (endings.Trapped trap line) }
    {
        Stop::Ended(Ending::Trapped { trap, line })
    }

    /// A turn was needed, and none was left.
    pub fn over_budget() -> Stop
        ensures { result ≡ stops.Ended endings.OverBudget }
    {
        Stop::Ended(Ending::OverBudget)
    }
}

impl From<Memory> for Stop {
    ghost from_gives = { λ _ stop. stop ≡ stops.Memory };

    fn from(_memory: Memory) -> Stop {
        Stop::Memory
    }
}

impl<T: Drop> From<AllocFailed<T>> for Stop {
    ghost from_gives = { λ _ stop. stop ≡ stops.Memory };

    fn from(_refused: AllocFailed<T>) -> Stop {
        Stop::Memory
    }
}

impl From<AllocError> for Stop {
    ghost from_gives = { λ _ stop. stop ≡ stops.Memory };

    fn from(_refused: AllocError) -> Stop {
        Stop::Memory
    }
}
