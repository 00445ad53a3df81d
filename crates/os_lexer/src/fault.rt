use os_io::Memory;
use std::alloc::AllocFailed;
use thiserror::Error;

/// Why a text has no tokens, and the line of the first point where it is so. Lines count from 1.
#[derive(Clone, Copy, Debug, PartialEq, Eq, Error)]
pub enum LexError {
    /// A byte, a `#` or a run of letters and digits that begins no form. It has the code 1.
    #[error("bad byte on line {line}")]
    BadByte { line: u32 },
    /// A `/*` without `*/`. It has the code 2.
    #[error("open comment on line {line}")]
    OpenComment { line: u32 },
    /// A number that has no type: one above 4,294,967,295, or a decimal one without suffix above 2,147,483,647. It has the code 3.
    #[error("big number on line {line}")]
    BigNumber { line: u32 },
    /// Memory ran out. This says nothing of the text.
    #[error("out of memory")]
    Memory,
}

/// What is wrong at a point, so that the bytes of a text can't be cut into tokens.
#[derive(Clone, Copy, Debug, PartialEq, Eq)]
pub enum Fault {
    /// Bytes that begin no token.
    BadByte,
    /// A comment that is never closed.
    OpenComment,
    /// A number above the largest one of its type.
    BigNumber,
}

impl Fault {
    ghost use Rattle.std.specs.Prelude.{◌≡◌};
    ghost use Rattle.os_lexer.specs.Answer.{error_of};
    ghost use Rattle.os_lexer.specs.Effects.{fault_code};

    /// The code under which a text is refused for it, from 1 to 3.
    pub fn code(self) -> u8
        ensures { result ≡ fault_code self }
    {
        match self {
            Fault::BadByte => 1,
            Fault::OpenComment => 2,
            Fault::BigNumber => 3,
        }
    }

    /// The error for this fault on a line.
    pub(crate) fn on_line(self, line: u32) -> LexError
        ensures { result ≡ error_of self line }
    {
        match self {
            Fault::BadByte => LexError::BadByte { line },
            Fault::OpenComment => LexError::OpenComment { line },
            Fault::BigNumber => LexError::BigNumber { line },
        }
    }
}

impl From<Memory> for LexError {
    ghost use Rattle.std.specs.Prelude.{◌≡◌};
    ghost use Rattle.os_lexer.specs.declared.fault.LexError.TheVariants as error;

    ghost from_gives = { λ _ e. e ≡ error.Memory };

    fn from(_error: Memory) -> LexError {
        LexError::Memory
    }
}

impl<T: Drop> From<AllocFailed<T>> for LexError {
    ghost use Rattle.std.specs.Prelude.{◌≡◌};
    ghost use Rattle.os_lexer.specs.declared.fault.LexError.TheVariants as error;

    ghost from_gives = { λ _ e. e ≡ error.Memory };

    fn from(_error: AllocFailed<T>) -> LexError {
        LexError::Memory
    }
}
