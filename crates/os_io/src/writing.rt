ghost use Rattle.std.specs.Prelude.{◌≡◌, ◌≢◌, ◌≤◌, IsErrOf, OnOk, OnErr};
ghost use Rattle.std.specs.Io.KnownBytes.{append_known};
ghost use Rattle.os_io.specs.Counts.{HasRisen};
ghost use Rattle.os_io.specs.Writing.{TookProperPrefix};

use crate::errors::Failed;
use crate::sink::Sink;
use thiserror::Error;

/// Why bytes could not all be written.
#[derive(Debug, Drop, Error)]
pub enum WriteError {
    /// The sink refused a call.
    #[error("the sink cannot be written to")]
    Failed,
    /// The sink took nothing of a piece that wasn't empty.
    #[error("the sink takes no more bytes")]
    Stuck,
}

impl From<Failed> for WriteError {
    ghost use Rattle.std.specs.Prelude.{◌≡◌};
    ghost use Rattle.os_io.specs.declared.writing.WriteError.TheVariants as write_error;

    ghost from_gives = { λ _ error. error ≡ write_error.Failed };

    fn from(_failed: Failed) -> WriteError {
        WriteError::Failed
    }
}

/// Writes all bytes, in as many calls as the sink asks for. It takes no memory.
pub fn write_whole<S: Sink>(sink: &mut S, bytes: &[u8]) -> Result<(), WriteError>
    // What was taken.
    ensures ok { OnOk result (S.taken sink.new ≡ append_known (S.taken sink.old) bytes.now) }
    ensures err { OnErr result (TookProperPrefix (S.taken sink.old) (S.taken sink.new) bytes.now) }
    // The cause of each error.
    ensures failed { IsErrOf result WriteError.Failed →
        HasRisen (S.faults sink.old) (S.faults sink.new) }
    ensures stuck { IsErrOf result WriteError.Stuck →
        HasRisen (S.empty_takes sink.old) (S.empty_takes sink.new) }

    // The counts otherwise.
    ensures no_fault { result ≢ Err WriteError.Failed → S.faults sink.new ≡ S.faults sink.old }
    ensures not_stuck { result ≢ Err WriteError.Stuck →
        S.empty_takes sink.new ≡ S.empty_takes sink.old }
    ensures faults_kept { S.faults sink.old ≤ S.faults sink.new }
    ensures empty_takes_kept { S.empty_takes sink.old ≤ S.empty_takes sink.new }
{
    let mut written = 0;
    while written < bytes.len() {
        let count = sink.write(&bytes[written..])?;
        if count == 0 {
            return Err(WriteError::Stuck);
        }
        written += count;
    }
    Ok(())
}
