ghost use Rattle.std.specs.Prelude.{◌≡◌, ◌≤◌, length};
ghost use Rattle.os_serve_answers.specs.Replies.{reply_by, reply_of};
ghost use Rattle.os_serve_jobs.specs.MemorySinkStates.{output_room};

use os_serve_jobs::MemorySink;
use osrun_core_jobs::{Status, USAGE};

/// What a job came to.
#[derive(Drop)]
pub enum JobAnswer {
    /// The line names no job.
    NoJob,
    /// Its sinks found no memory.
    NoMemory,
    /// The status of its command, and what its sinks took.
    Done {
        status: u8,
        output: MemorySink,
        report: MemorySink,
    },
}

impl JobAnswer {
    /// What a job came to whose command ended with a status, and with these sinks.
    pub fn of_command(status: u8, output: MemorySink, report: MemorySink) -> JobAnswer
        ensures { reply_of result ≡ reply_by status output report }
    {
        if output.has_failed() || report.has_failed() {
            return JobAnswer::NoMemory;
        }
        JobAnswer::Done {
            status,
            output,
            report,
        }
    }

    /// The status that is told.
    pub fn status(&self) -> u8
        ensures { result ≡ (reply_of self.now).status }
    {
        match self {
            JobAnswer::NoJob => Status::BadWords.code(),
            JobAnswer::NoMemory => Status::NoMemory.code(),
            JobAnswer::Done { status, .. } => *status,
        }
    }

    /// The bytes of the output.
    pub fn output(&self) -> &[u8]
        ensures bytes { result.now ≡ (reply_of self.now).output }
        ensures within { length result.now ≤ output_room }
    {
        match self {
            JobAnswer::Done { output, .. } => output.bytes(),
            _ => &[],
        }
    }

    /// The bytes of the report.
    pub fn told(&self) -> &[u8]
        ensures bytes { result.now ≡ (reply_of self.now).told }
        ensures within { length result.now ≤ output_room }
    {
        match self {
            JobAnswer::Done { report, .. } => report.bytes(),
            JobAnswer::NoJob => USAGE,
            JobAnswer::NoMemory => &[],
        }
    }
}
