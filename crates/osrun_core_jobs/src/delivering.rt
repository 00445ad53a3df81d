ghost use Rattle.std.specs.Prelude.{◌≡◌, [], ℕ, List};
ghost use Rattle.osrun_core_jobs.specs.HandsOver.{HandsOver};
ghost use Rattle.osrun_core_jobs.specs.Telling.{IsWritten};

use crate::status::Status;
use os_io::{Sink, WriteError, write_whole};

/// Lines that can be written, as a report is. Nothing of them need be in memory.
pub trait Lines {
    // Whether the lines, written one behind another, are this text.
    ghost tells: { Self → List ℕ → Type 0 };

    /// Writes the lines. It takes no memory.
    fn write_to<S: Sink>(&self, sink: &mut S) -> Result<(), WriteError>
        requires { (text : List ℕ) × tells self.now text }
        ensures written { (text : List ℕ) → tells self.now text → IsWritten S.Sink sink.old sink.new text result }
        ensures nothing { tells self.now [] → sink.new ≡ sink.old };
}

/// A report without lines.
#[derive(Clone, Copy, Debug)]
pub struct NoLines;

impl Lines for NoLines {
    ghost use Rattle.std.specs.Prelude.{◌≡◌, []};

    ghost tells = { λ _ text. text ≡ [] };

    fn write_to<S: Sink>(&self, _sink: &mut S) -> Result<(), WriteError> {
        Ok(())
    }
}

/// Writes bytes to the output, and then lines to the report. It takes no memory. The status is the one that is given, where
/// both took all.
pub fn deliver<O: Sink, E: Sink, L: Lines>(
    out: &mut O,
    report: &mut E,
    bytes: &[u8],
    lines: &L,
    status: Status,
) -> Status
    requires { (text : List ℕ) × L.tells lines.now text }
    ensures { (text : List ℕ) → L.tells lines.now text
        → HandsOver O.Sink out.old out.new bytes.now E.Sink report.old report.new text status result }
{
    if write_whole(out, bytes).is_err() {
        return Status::WriteFault;
    }
    if lines.write_to(report).is_err() {
        return Status::WriteFault;
    }
    status
}
