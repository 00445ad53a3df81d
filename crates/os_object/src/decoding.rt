//! From the bytes of an object to a code.

ghost use Rattle.std.specs.Prelude.{◌≡◌, ◌≤◌, length, IfOk};
ghost use Rattle.os_code.specs.Codes.{parts_of};
ghost use Rattle.os_code.specs.IsValid.{IsValid};
ghost use Rattle.os_code.specs.declared.parts.Parts.{Parts as CodeParts};
ghost use Rattle.os_object.specs.Answers.{IsReadAs};
ghost use Rattle.os_object.specs.Object.{Spells};
ghost use Rattle.os_io.specs.Limits.{read_limit};

use crate::bytes::numbers_in;
use crate::object_error::ObjectError;
use crate::reading::read_parts;
use os_code::Code;
use os_object_validity::is_valid;
use std::alloc::Global;

/// The code that the bytes spell, all of them. It takes time and memory in proportion to the bytes.
pub fn decode(alloc: Global, bytes: &[u8]) -> Result<Code, ObjectError>
    requires { length bytes.now ≤ read_limit }
    // Where there is a code, the bytes are its object.
    ensures spelled { IfOk result (λ code. Spells bytes.now (parts_of code)) }
    // The code is valid.
    ensures valid { IfOk result (λ code. IsValid (parts_of code)) }
    // Bytes that spell parts are read as these parts. They are refused as `Invalid` only where the parts aren't valid, and
    // never as `Format`.
    ensures exact { (parts : CodeParts) → Spells bytes.now parts → IsReadAs parts result }
    // What isn't an object is refused as nothing else.
    ensures invalid { result ≡ Err ObjectError.Invalid → (parts : CodeParts) × Spells bytes.now parts × (IsValid parts → ⊥) }
{
    let numbers = numbers_in(alloc, bytes)?;
    let parts = read_parts(alloc, numbers.as_slice())?;
    drop(numbers);
    if !is_valid(alloc, &parts)? {
        return Err(ObjectError::Invalid);
    }
    Ok(Code::new(alloc, parts)?)
}
