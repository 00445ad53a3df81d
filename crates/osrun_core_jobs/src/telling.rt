ghost use Rattle.std.specs.Prelude.{◌≡◌, ◌≤◌, ◌++◌, codes, length};
ghost use Rattle.std.specs.Fmt.{decimal};
ghost use Rattle.os_io.specs.Lines.{ended_line};
ghost use Rattle.osrun_core_jobs.specs.Files.{subject_name};
ghost use Rattle.osrun_core_jobs.specs.Refusal.{refusal_line, refusal_status};
ghost use Rattle.osrun_core_jobs.specs.Telling.{Tells};
ghost use Rattle.osrun_core_jobs.specs.Refuses.{Refuses};

use crate::line::Line;
use crate::refusal::Refusal;
use crate::status::Status;
use crate::subject::Subject;
use os_io::{Sink, write_whole};

/// The line that is told where words name no job.
pub const USAGE: &[u8] = b"usage\n";

/// Writes a line. Where the sink fails, a front of the line was written.
pub fn tell<S: Sink>(sink: &mut S, text: &[u8])
    ensures { Tells S.Sink sink.old sink.new text.now }
{
    let _ = write_whole(sink, text);
}

/// The front of the line: `refused` and the code.
fn refused_by(code: u8) -> Line
    ensures told { result ≡ codes "refused " ++ decimal code }
    ensures short { length result ≤ 11 }
{
    let mut told = Line::new();
    told.text(b"refused ");
    told.number(code as u64);
    told
}

/// Adds the line at which bytes are refused.
fn end_at(told: &mut Line, number: u32)
    requires { length told.old ≤ 11 }
    ensures { told.new ≡ told.old ++ ended_line (codes " line " ++ decimal number) }
{
    told.text(b" line ");
    told.number(number as u64);
    told.text(b"\n");
}

/// The line that tells that bytes are refused.
fn refused_line(code: u8, line: Option<u32>) -> Line
    ensures { result ≡ refusal_line (Refusal.Refused code line) }
{
    let mut told = refused_by(code);
    match line {
        Some(number) => {
            end_at(&mut told, number);
            told
        }
        None => {
            told.text(b"\n");
            told
        }
    }
}

/// The line that tells what is wrong with one of the files.
fn subject_line(wrong: &[u8], subject: Subject) -> Line
    requires { length wrong.now ≤ 16 }
    ensures { result ≡ ended_line (wrong.now ++ subject_name subject) }
{
    let mut told = Line::new();
    told.text(wrong);
    told.text(subject.name());
    told.text(b"\n");
    told
}

/// Tells a refusal, and answers its status, which stays where the sink fails. Want of memory is not told.
pub fn refuse<S: Sink>(sink: &mut S, refusal: Refusal) -> Status
    ensures status { result ≡ refusal_status refusal }
    ensures tells { Refuses S.Sink sink.old sink.new refusal }
{
    match refusal {
        Refusal::Refused { code, line } => {
            tell(sink, refused_line(code, line).as_bytes());
            Status::Refused
        }
        Refusal::TooLong(subject) => {
            tell(sink, subject_line(b"too long ", subject).as_bytes());
            Status::TooLong
        }
        Refusal::ReadFault(subject) => {
            tell(sink, subject_line(b"read fault ", subject).as_bytes());
            Status::ReadFault
        }
        Refusal::Memory => Status::NoMemory,
    }
}
