//! What is told of the program itself, and where cases aren't run.

use crate::loading::NoBytes;
use crate::status::Status;
use std::io;

/// What `--version` tells: the version in the file VERSION of the repository.
const VERSION: &str = "osvectors 1.0.0";

/// What is told where help is asked for.
const HELP: &str = "\
osvectors runs the cases of FILE, each a program over an input, and tells which of them don't have the wanted output.

    osvectors FILE [--jobs N] [--tap OUT | --junit OUT]
    osvectors --help       tells this
    osvectors --version    tells the version

A line of FILE is a case: PROGRAM INPUT WANTED [OPTION..]. WANTED is the name of a file with the wanted output, or sha256: and the 64 hex
digits of its SHA-256 sum. The options are those of osrun run. Empty lines and lines that begin with # say nothing. A case passes where the
run has the status 0 and the wanted output.

--jobs N runs N cases side by side, 1 to 64, and 4 where it isn't given. --tap OUT writes a report in the Test Anything Protocol to the
file OUT, and --junit OUT one in the XML of JUnit. On a terminal standard error shows how many cases were run.
The status is 0 where all passed, 1 where one failed, 2 where the words or a line are wrong, with nothing run, 5 where a file couldn't be
read, 6 where not all could be written, and 7 where memory ran out.
";

/// All is done, unless the text couldn't be told.
fn status_of(told: io::Result<()>) -> Status {
    match told {
        Ok(()) => Status::AllPassed,
        Err(_) => Status::WriteFault,
    }
}

/// Tells how the program is used.
pub(crate) fn tell_help(out: &mut impl io::Write) -> Status {
    status_of(write!(out, "{HELP}"))
}

/// Tells the version.
pub(crate) fn tell_version(out: &mut impl io::Write) -> Status {
    status_of(writeln!(out, "{VERSION}"))
}

/// Tells that the words ask for nothing. Where a line on standard error can't be written, the status stays the same.
pub(crate) fn tell_usage(told: &mut impl io::Write) -> Status {
    let _ = writeln!(
        told,
        "usage: osvectors FILE [--jobs N] [--tap OUT | --junit OUT] | --help | --version"
    );
    Status::BadWords
}

/// Tells that memory could not be had.
pub(crate) fn tell_no_memory(told: &mut impl io::Write) -> Status {
    let _ = writeln!(told, "memory ran out");
    Status::NoMemory
}

/// Tells that a line is no case.
pub(crate) fn tell_line(told: &mut impl io::Write, file: &str, line: u32) -> Status {
    let _ = writeln!(told, "{file}:{line}: no case");
    Status::BadWords
}

/// Tells that something was not written whole.
pub(crate) fn tell_unwritten(told: &mut impl io::Write, name: &str) -> Status {
    let _ = writeln!(told, "{name}: can't be written");
    Status::WriteFault
}

/// Tells why the bytes of the file of cases can't be had.
pub(crate) fn tell_no_bytes(told: &mut impl io::Write, file: &str, why: NoBytes) -> Status {
    let _ = match why {
        NoBytes::TooLong => writeln!(told, "{file}: too long"),
        NoBytes::Failed => writeln!(told, "{file}: can't be read"),
        NoBytes::Memory => return tell_no_memory(told),
    };
    Status::ReadFault
}
