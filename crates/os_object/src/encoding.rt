//! From a code to the bytes of its object.

ghost use Rattle.std.specs.Prelude.{IfOk};
ghost use Rattle.os_code.specs.Codes.{parts_of};
ghost use Rattle.os_object.specs.Object.{Spells};

use crate::bytes::write_numbers;
use crate::writing::{write_instrs, write_sites, write_units};
use os_code::Code;
use os_io::Memory;
use std::alloc::Global;

/// The object of a code: the bytes that spell its parts.
pub fn encode(alloc: Global, code: &Code) -> Result<Vec<u8>, Memory>
    ensures { IfOk result (λ bytes. Spells bytes.items (parts_of code.now)) }
{
    let mut object = Vec::from_slice(alloc, &[0x4f, 0x53, 0x4f, 0x31])?;
    write_numbers(&mut object, &[code.streams, code.main])?;
    write_units(&mut object, code.units.as_slice())?;
    write_sites(&mut object, code.sites.as_slice())?;
    write_instrs(&mut object, code.instrs.as_slice())?;
    Ok(object)
}
