//! What is written of a text where a program is asked for that begins as it does.

ghost use Rattle.std.specs.Prelude.{◌≤◌, length};
ghost use Rattle.os_lexer.specs.Limits.{text_limit};

use crate::completion::completion;
use crate::errors::fault_found;
use crate::judged::Judged;
use crate::judging::Named;
use crate::reports::of_one;
use crate::telling::{Told, tell, tell_no_memory, told_by};
use front_end::{TEXT_LIMIT, TextError, TextRefusal, read_program};
use os_io::Memory;
use os_lexer::Fault;
use oscheck_reports::Format;
use std::alloc::Global;
use std::io;

/// Writes the completion of a text that is no program.
fn write_completion(
    out: &mut impl io::Write,
    told: &mut impl io::Write,
    alloc: Global,
    name: &str,
    text: &[u8],
) -> io::Result<Judged>
    requires { length text.now ≤ text_limit }
{
    match completion(alloc, text) {
        Ok(Some(whole)) => write_text(out, &whole),
        Ok(None) => tell_no_completion(told, name),
        Err(Memory) => tell_no_memory(told, name),
    }
}

/// Tells that no completion was found.
fn tell_no_completion(told: &mut impl io::Write, name: &str) -> io::Result<Judged> {
    writeln!(
        told,
        "{name}: found no program of at most {TEXT_LIMIT} bytes that begins so"
    )?;
    Ok(Judged::Refused)
}

/// Writes a text that is a program.
fn write_text(out: &mut impl io::Write, text: &[u8]) -> io::Result<Judged> {
    out.write_all(text)?;
    Ok(Judged::Accepted)
}

/// What is told of the first fault of the bytes of a text.
fn told_of_fault(alloc: Global, named: Named<'_>, fault: Fault, line: u32) -> Result<Told, Memory>
    requires { length named.text.now ≤ text_limit }
{
    let fault = fault_found(alloc, named.text, fault, line)?;
    told_by(alloc, Format::Text, &of_one(alloc, named.name, fault)?)
}

/// Writes a program that begins as a text does, or tells why there is none: the text itself where its tokens mean one.
pub(crate) fn complete_text(
    out: &mut impl io::Write,
    told: &mut impl io::Write,
    alloc: Global,
    named: Named<'_>,
) -> io::Result<Judged>
    requires { length named.text.now ≤ text_limit }
{
    let Named { name, text } = named;
    match read_program(alloc, text) {
        Err(TextError::Refused { refusal, line }) => match refusal {
            TextRefusal::Fault(fault) => tell(told, name, told_of_fault(alloc, named, fault, line)),
            TextRefusal::NoProgram => write_completion(out, told, alloc, name, text),
            TextRefusal::Violated(_) => write_text(out, text),
        },
        Err(TextError::Memory) => tell_no_memory(told, name),
        Ok(_) => write_text(out, text),
    }
}
