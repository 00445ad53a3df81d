ghost use Rattle.std.specs.Prelude.{◌≡◌};
ghost use Rattle.osrun_core_jobs.specs.Refusal.{refusal_status};

use crate::status::Status;
use crate::subject::Subject;
use os_io::Memory;

/// Why a job is not done.
#[derive(Clone, Copy, Debug, PartialEq, Eq)]
pub enum Refusal {
    /// The bytes of a file are refused: the code of what is wrong with them, and the line where it has one, from 1 on.
    Refused { code: u8, line: Option<u32> },
    /// The file has more bytes than its limit.
    TooLong(Subject),
    /// The file could not be read.
    ReadFault(Subject),
    /// Memory could not be had.
    Memory,
}

impl Refusal {
    /// The status of a refusal.
    pub fn status(self) -> Status
        ensures { result ≡ refusal_status self }
    {
        match self {
            Refusal::Refused { .. } => Status::Refused,
            Refusal::TooLong(_) => Status::TooLong,
            Refusal::ReadFault(_) => Status::ReadFault,
            Refusal::Memory => Status::NoMemory,
        }
    }
}

impl From<Memory> for Refusal {
    ghost use Rattle.std.specs.Prelude.{◌≡◌};
    ghost use Rattle.osrun_core_jobs.specs.declared.refusal.Refusal.TheVariants as refusals;

    ghost from_gives = { λ _ refusal. refusal ≡ refusals.Memory };

    fn from(_memory: Memory) -> Refusal {
        Refusal::Memory
    }
}
