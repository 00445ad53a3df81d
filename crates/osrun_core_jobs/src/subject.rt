ghost use Rattle.std.specs.Prelude.{◌≡◌};
ghost use Rattle.osrun_core_jobs.specs.Files.{limit_of, subject_name};

use crate::limits::TRACE_LIMIT;
use flow_core_laws::INPUT_LIMIT;
use os_io::READ_LIMIT;
use os_lexer::TEXT_LIMIT;

/// What a file is to the job that reads it.
#[derive(Clone, Copy, Debug, PartialEq, Eq)]
pub enum Subject {
    /// The program's text.
    Program,
    /// The bytes that a program or a code is run over.
    Input,
    /// The object of a code.
    Object,
    /// The trace of a run.
    Trace,
}

impl Subject {
    /// How many bytes the file may have.
    pub fn limit(self) -> u64
        ensures { result ≡ limit_of self }
    {
        match self {
            Subject::Program => TEXT_LIMIT as u64,
            Subject::Input => INPUT_LIMIT as u64,
            Subject::Object => READ_LIMIT,
            Subject::Trace => TRACE_LIMIT,
        }
    }

    /// What a refusal calls the file.
    pub(crate) fn name(self) -> &'static [u8]
        ensures { result.now ≡ subject_name self }
    {
        match self {
            Subject::Program => b"program",
            Subject::Input => b"input",
            Subject::Object => b"object",
            Subject::Trace => b"trace",
        }
    }
}
