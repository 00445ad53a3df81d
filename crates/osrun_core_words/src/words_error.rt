ghost use Rattle.std.specs.Prelude.{◌≡◌};
ghost use Rattle.osrun_core_words.specs.declared.words_error.WordsError.TheVariants as errors;

use std::alloc::AllocError;
use thiserror::Error;

/// Why there is no job.
#[derive(Debug, Drop, Error)]
pub enum WordsError {
    /// The words name none.
    #[error("the words name no job")]
    Refused,
    /// Memory could not be had.
    #[error("out of memory")]
    Memory,
}

impl From<AllocError> for WordsError {
    ghost from_gives = { λ _ error. error ≡ errors.Memory };

    fn from(_error: AllocError) -> WordsError {
        WordsError::Memory
    }
}
