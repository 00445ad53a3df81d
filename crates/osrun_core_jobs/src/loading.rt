ghost use Rattle.std.specs.Prelude.{◌≡◌, ◌≢◌, ◌≤◌, IsTrue, IfOk, IfErr, MatchResult};
ghost use Rattle.os_io.specs.Counts.{raised};
ghost use Rattle.osrun_core_jobs.specs.declared.status.Status.TheVariants.{ReadFault};
ghost use Rattle.osrun_core_jobs.specs.FileLoad.{IsLoaded, IsLoadRefusal};
ghost use Rattle.osrun_core_jobs.specs.Reading.{IsLeft};
ghost use Rattle.osrun_core_jobs.specs.Refusal.{refusal_status};

use crate::refusal::Refusal;
use crate::subject::Subject;
use os_io::{Files, Loaded, ReadError, read_whole};
use std::alloc::Global;

/// Reads a file of a job, as far as its limit.
pub fn load<F: Files>(
    alloc: Global,
    files: &mut F,
    name: &str,
    subject: Subject,
) -> Result<Vec<u8>, Refusal>
    requires { IsTrue (F.may files.old (F.opens files.old) name.now) }
    ensures loaded { IfOk result (λ bytes. IsLoaded F.Files files.old files.new subject name.now bytes.items) }
    ensures refused { IfErr result (IsLoadRefusal F.Files files.old files.new subject name.now) }
    ensures no_fault { MatchResult result (λ _. F.faults files.new ≡ F.faults files.old)
        (λ r. refusal_status r ≢ ReadFault → F.faults files.new ≡ F.faults files.old) }
    ensures left { IsLeft F.Files files.old files.new name.now }
    ensures faults_kept { F.faults files.old ≤ F.faults files.new }
    ensures opens { F.opens files.new ≡ raised (F.opens files.old) 1 }
    ensures holds { F.holds files.new ≡ F.holds files.old }
    ensures may { F.may files.new ≡ F.may files.old }
{
    match read_whole(alloc, files, name, subject.limit()) {
        Ok(Loaded::Whole(bytes)) => Ok(bytes),
        Ok(Loaded::TooLong) => Err(Refusal::TooLong(subject)),
        Err(ReadError::Failed) => Err(Refusal::ReadFault(subject)),
        Err(ReadError::Memory) => Err(Refusal::Memory),
    }
}
