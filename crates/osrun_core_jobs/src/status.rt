ghost use Rattle.std.specs.Prelude.{◌≡◌};
ghost use Rattle.collector.specs.Status.{run_status_code};
ghost use Rattle.osrun_core_jobs.specs.Status.{status_code};

use collector::RunStatus;

/// How a call of the command ended.
#[derive(Clone, Copy, Debug, PartialEq, Eq)]
pub enum Status {
    /// The job was done: of a run every activation is Done, the control program too, and an activation that was to be explained
    /// is starved.
    AllDone = 0,
    /// The run was made otherwise, or the activation that was to be explained isn't starved.
    NotAllDone = 1,
    /// The words name no job.
    BadWords = 2,
    /// The bytes of a file are refused.
    Refused = 3,
    /// A file is longer than its limit.
    TooLong = 4,
    /// A file could not be read.
    ReadFault = 5,
    /// The output or the report could not be written.
    WriteFault = 6,
    /// Memory could not be had.
    NoMemory = 7,
    /// A trace was read, and the program can't be run whole in the order that it tells.
    NotReplayed = 8,
}

impl Status {
    /// The status of a call that made a run.
    pub fn of_run(run: RunStatus) -> Status
        ensures { status_code result ≡ run_status_code run }
    {
        match run {
            RunStatus::AllDone => Status::AllDone,
            RunStatus::NotAllDone => Status::NotAllDone,
        }
    }

    /// The status of the process, 0 to 8.
    pub fn code(self) -> u8
        ensures { result ≡ status_code self }
    {
        self as u8
    }
}
