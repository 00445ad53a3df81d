//! What is told where no C is written: one line, and the status of the program. Where the line can't be written, the status is the same.

use crate::loading::NoBytes;
use crate::status::Status;
use front_end::TextRefusal;
use os_object::ObjectError;
use std::io;

/// Tells that the words ask for nothing.
pub(crate) fn tell_usage(told: &mut impl io::Write) -> Status {
    let _ = writeln!(
        told,
        "usage: oscc [--object] FILE | --runtime | --help | --version"
    );
    Status::BadWords
}

/// Tells that memory could not be had.
pub(crate) fn tell_no_memory(told: &mut impl io::Write) -> Status {
    let _ = writeln!(told, "memory ran out");
    Status::NoMemory
}

/// Tells why the bytes of a file can't be had.
pub(crate) fn tell_no_bytes(told: &mut impl io::Write, name: &str, why: NoBytes) -> Status {
    match why {
        NoBytes::TooLong(most) => {
            let _ = writeln!(told, "{name}: error: it has more than {most} bytes");
            Status::Refused
        }
        NoBytes::Failed => {
            let _ = writeln!(told, "{name}: can't be read");
            Status::ReadFault
        }
        NoBytes::Memory => tell_no_memory(told),
    }
}

/// Tells why a text is refused, by its code in its line. `oscheck` says more.
pub(crate) fn tell_refused(
    told: &mut impl io::Write,
    name: &str,
    refusal: TextRefusal,
    line: u32,
) -> Status {
    let code = refusal.code();
    let _ = writeln!(told, "{name}:{line}: error {code}: see oscheck {name}");
    Status::Refused
}

/// Tells why an object is refused, by the code that `osrun exec` has for it.
pub(crate) fn tell_object(told: &mut impl io::Write, name: &str, error: ObjectError) -> Status {
    let code = match error {
        ObjectError::Format => 30,
        ObjectError::Invalid => 31,
        ObjectError::Memory => return tell_no_memory(told),
    };
    let _ = writeln!(told, "{name}: error {code}: {error}");
    Status::Refused
}

/// Tells that standard output didn't take all.
pub(crate) fn tell_unwritten(told: &mut impl io::Write) -> Status {
    let _ = writeln!(told, "write fault");
    Status::WriteFault
}
