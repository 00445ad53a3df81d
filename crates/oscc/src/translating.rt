//! From a text or an object to its C.

ghost use Rattle.std.specs.Prelude.{◌≡◌, ◌≤◌, length, IfOk, IfErr, Err};
ghost use Rattle.front_end.specs.Texts.{IsTrueOf};
ghost use Rattle.os_code.specs.IsValid.{IsValid};
ghost use Rattle.os_code.specs.declared.parts.Parts.{Parts as CodeParts};
ghost use Rattle.os_io.specs.Limits.{read_limit};
ghost use Rattle.os_lexer.specs.Limits.{text_limit};
ghost use Rattle.os_object.specs.Object.{Spells};
ghost use Rattle.os_object.specs.declared.object_error.ObjectError.TheVariants as object_error;
ghost use Rattle.oscc.specs.Written.{IsWritten, IsWrittenOfObject};

use crate::loading::{object_of, text_of};
use crate::status::Status;
use crate::telling::{tell_no_bytes, tell_no_memory, tell_object, tell_refused, tell_unwritten};
use front_end::{TextError, read_program};
use lowering::lower;
use os_io::Memory;
use os_object::{ObjectError, decode};
use oscc_text::c_text;
use std::alloc::Global;
use std::io;

/// The C of a text.
fn c_of_text(alloc: Global, text: &[u8]) -> Result<Vec<u8>, TextError>
    requires { length text.now ≤ text_limit }
    ensures written { IfOk result (λ written. IsWritten text.now written.items) }
    ensures refused { IfErr result (IsTrueOf text.now) }
{
    let checked = read_program(alloc, text)?;
    let code = match lower(alloc, &checked) {
        Ok(code) => code,
        Err(_) => return Err(TextError::Memory),
    };
    match c_text(alloc, &code) {
        Ok(told) => Ok(told.into_bytes()),
        Err(Memory) => Err(TextError::Memory),
    }
}

/// The C of an object.
fn c_of_object(alloc: Global, object: &[u8]) -> Result<Vec<u8>, ObjectError>
    requires { length object.now ≤ read_limit }
    ensures written { IfOk result (λ written. IsWrittenOfObject object.now written.items) }
    ensures invalid { result ≡ Err object_error.Invalid → (parts : CodeParts) × Spells object.now parts × (IsValid parts → ⊥) }
{
    let code = decode(alloc, object)?;
    match c_text(alloc, &code) {
        Ok(told) => Ok(told.into_bytes()),
        Err(Memory) => Err(ObjectError::Memory),
    }
}

/// Writes bytes to standard output.
fn write_all(out: &mut impl io::Write, bytes: &[u8]) -> io::Result<()> {
    out.write_all(bytes)?;
    out.flush()
}

/// Writes C, and tells where not all of it could be written.
fn deliver(rt: &HostRuntime, written: &[u8]) -> Status {
    match write_all(&mut rt.stdout(), written) {
        Ok(()) => Status::Done,
        Err(_) => tell_unwritten(&mut rt.stderr()),
    }
}

/// Writes the C of a text, or tells why there is none.
fn translate_text(rt: &HostRuntime, name: &str, text: &[u8]) -> Status
    requires { length text.now ≤ text_limit }
{
    match c_of_text(rt.alloc(), text) {
        Ok(written) => deliver(rt, &written),
        Err(TextError::Refused { refusal, line }) => tell_refused(
            &mut rt.stderr(),
            name,
            refusal,
            line,
        ),
        Err(TextError::Memory) => tell_no_memory(&mut rt.stderr()),
    }
}

/// Writes the C of an object, or tells why there is none.
fn translate_object(rt: &HostRuntime, name: &str, object: &[u8]) -> Status
    requires { length object.now ≤ read_limit }
{
    match c_of_object(rt.alloc(), object) {
        Ok(written) => deliver(rt, &written),
        Err(error) => tell_object(&mut rt.stderr(), name, error),
    }
}

/// Writes the program in a file as C, or tells why it doesn't.
pub(crate) fn translate(rt: &HostRuntime, name: &str) -> Status {
    match text_of(rt, rt.alloc(), name) {
        Ok(text) => translate_text(rt, name, &text),
        Err(why) => tell_no_bytes(&mut rt.stderr(), name, why),
    }
}

/// Writes the code of the object in a file as C, or tells why it doesn't.
pub(crate) fn translate_code(rt: &HostRuntime, name: &str) -> Status {
    match object_of(rt, rt.alloc(), name) {
        Ok(object) => translate_object(rt, name, &object),
        Err(why) => tell_no_bytes(&mut rt.stderr(), name, why),
    }
}
