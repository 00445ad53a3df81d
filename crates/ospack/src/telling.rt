//! What is told of the program itself, and where not all was packed or unpacked.

use crate::status::Status;
use ospack_slots::{PackError, SlotFault};
use std::io;

/// What `--version` tells: the version in the file VERSION of the repository.
const VERSION: &str = "ospack 1.0.0";

/// What is told where help is asked for.
const HELP: &str = "\
ospack packs slots of a fixed size, or unpacks them: from standard input to standard output, a slot at a time.

    ospack pack SLOT             takes slots of SLOT bytes, and writes the length and the bytes of each
    ospack unpack SLOT           takes what was packed, and writes slots again, with zeros after their bytes
    ospack --help                tells this
    ospack --version             tells the version

A slot begins with two bytes of length, the lower one first. SLOT counts them too: it is 2 to 65536.
The status is 0 where all is done, 2 for other words, 3 where a slot is refused, 5 where standard input couldn't be read,
6 where standard output didn't take all, and 7 where memory ran out. Where it isn't 0, a line on standard error says why.
";

/// All is done, unless the text couldn't be told.
fn status_of(told: io::Result<()>) -> Status {
    match told {
        Ok(()) => Status::AllDone,
        Err(_) => Status::WriteFault,
    }
}

/// Tells how the program is used.
pub(crate) fn tell_help(out: &mut impl io::Write) -> Status {
    status_of(write!(out, "{HELP}"))
}

/// Tells the version.
pub(crate) fn tell_version(out: &mut impl io::Write) -> Status {
    status_of(writeln!(out, "{VERSION}"))
}

/// Tells that the words ask for nothing. Where a line on standard error can't be written, the status stays the same.
pub(crate) fn tell_usage(told: &mut impl io::Write) -> Status {
    let _ = writeln!(told, "usage");
    Status::BadWords
}

/// Tells that memory could not be had.
pub(crate) fn tell_no_memory(told: &mut impl io::Write) -> Status {
    let _ = writeln!(told, "out of memory");
    Status::NoMemory
}

/// Tells which slot is refused, and why.
fn tell_slot(told: &mut impl io::Write, number: u64, fault: SlotFault) -> Status {
    let _ = match fault {
        SlotFault::EndsEarly => writeln!(told, "slot {number} ends early"),
        SlotFault::TooLong { length } => writeln!(told, "slot {number} length {length}"),
    };
    Status::Refused
}

/// Tells why not all was packed or unpacked.
pub(crate) fn tell(told: &mut impl io::Write, error: PackError) -> Status {
    match error {
        PackError::Slot { number, fault } => tell_slot(told, number, fault),
        PackError::Read => {
            let _ = writeln!(told, "read fault");
            Status::ReadFault
        }
        PackError::Write(_) => {
            let _ = writeln!(told, "write fault");
            Status::WriteFault
        }
        PackError::Memory => tell_no_memory(told),
        PackError::Uncounted => {
            let _ = writeln!(told, "slot {} can't be counted", u64::MAX);
            Status::Refused
        }
    }
}
