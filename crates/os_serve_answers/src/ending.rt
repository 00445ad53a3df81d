ghost use Rattle.std.specs.Prelude.{◌≢◌};
ghost use Rattle.os_serve_answers.specs.Answered.{EndsBy};

use os_io::Sink;
use os_serve_jobs::InputState;
use osrun_core_jobs::{Status, tell};

/// What is told where the file of jobs is too long.
const TOO_LONG: &[u8] = b"too long jobs\n";
/// What is told where it can't be read.
const READ_FAULT: &[u8] = b"read fault jobs\n";

/// Tells how the file of jobs ended, where that is no good end, and answers the status.
pub fn end<E: Sink>(source: InputState, report: &mut E) -> Status
    requires { source ≢ InputState.Open }
    ensures { EndsBy E.Sink report.old report.new source result }
{
    match source {
        InputState::TooLong => {
            tell(report, TOO_LONG);
            Status::TooLong
        }
        InputState::Failed => {
            tell(report, READ_FAULT);
            Status::ReadFault
        }
        InputState::AtEnd | InputState::Open => Status::AllDone,
    }
}
