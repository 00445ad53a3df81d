//! Bytes and the numbers that they are, four bytes each.

ghost use Rattle.std.specs.Prelude.{◌≡◌, ◌++◌, ◌∷◌, [], List, ℕ, IfOk, IfErr, OnOk};
ghost use Rattle.std.specs.List.{flat_map};
ghost use Rattle.os_object.specs.Fronts.{IsObjectRefused};
ghost use Rattle.os_object.specs.Object.{number};

use crate::object_error::ObjectError;
use os_io::Memory;
use std::alloc::Global;

/// The numbers behind the mark of an object.
pub(crate) fn numbers_in(alloc: Global, bytes: &[u8]) -> Result<Vec<u32>, ObjectError>
    ensures ok { IfOk result (λ numbers. bytes.now ≡ 79 ∷ 83 ∷ 79 ∷ 49 ∷ flat_map number numbers.items) }
    ensures err { IfErr result (λ error. IsObjectRefused error ((numbers : List ℕ) → bytes.now ≡ 79 ∷ 83 ∷ 79 ∷ 49 ∷ flat_map number numbers → ⊥)) }
{
    let [0x4f, 0x53, 0x4f, 0x31, rest @ ..] = bytes else {
        return Err(ObjectError::Format);
    };
    numbers_of(alloc, rest)
}

/// The numbers that the bytes are.
fn numbers_of(alloc: Global, bytes: &[u8]) -> Result<Vec<u32>, ObjectError>
    ensures ok { IfOk result (λ numbers. bytes.now ≡ flat_map number numbers.items) }
    ensures err { IfErr result (λ error. IsObjectRefused error ((numbers : List ℕ) → bytes.now ≡ flat_map number numbers → ⊥)) }
{
    let mut numbers = Vec::with_capacity(alloc, bytes.len() / 4)?;
    let mut rest = bytes;
    while let [first, second, third, fourth, after @ ..] = rest {
        numbers.push(number_of(*first, *second, *third, *fourth))?;
        rest = after;
    }
    if !rest.is_empty() {
        return Err(ObjectError::Format);
    }
    Ok(numbers)
}

/// The number that four bytes are, the lowest first.
fn number_of(first: u8, second: u8, third: u8, fourth: u8) -> u32
    ensures { number result ≡ first ∷ second ∷ third ∷ fourth ∷ [] }
{
    u32::from(first)
        + 256 * u32::from(second)
        + 65536 * u32::from(third)
        + 16777216 * u32::from(fourth)
}

/// Adds the bytes of a number.
fn push_number(object: &mut Vec<u8>, written: u32) -> Result<(), Memory>
    ensures { OnOk result (object.new.items ≡ object.old.items ++ number written) }
{
    object.extend_from_slice(&[
        (written % 256) as u8,
        (written / 256 % 256) as u8,
        (written / 65536 % 256) as u8,
        (written / 16777216) as u8,
    ])?;
    Ok(())
}

/// Adds the bytes of numbers.
pub(crate) fn write_numbers(object: &mut Vec<u8>, numbers: &[u32]) -> Result<(), Memory>
    ensures { OnOk result (object.new.items ≡ object.old.items ++ flat_map number numbers.now) }
{
    for written in numbers {
        push_number(object, *written)?;
    }
    Ok(())
}
