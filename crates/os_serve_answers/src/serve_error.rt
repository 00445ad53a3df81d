ghost use Rattle.std.specs.Prelude.{◌≡◌};
ghost use Rattle.os_serve_answers.specs.Answered.{stop_status};

use osrun_core_jobs::Status;

/// Why the server stops before all jobs are answered.
#[derive(Clone, Copy, Debug, PartialEq, Eq)]
pub enum ServeError {
    /// Memory could not be had for the server itself.
    Memory,
    /// The output could not be written.
    Write,
}

impl ServeError {
    /// The status with which the server then ends.
    pub fn status(self) -> Status
        ensures { result ≡ stop_status self }
    {
        match self {
            ServeError::Memory => Status::NoMemory,
            ServeError::Write => Status::WriteFault,
        }
    }
}
