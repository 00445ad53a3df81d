//! The parts of a code in numbers.

ghost use Rattle.std.specs.Prelude.{◌≡◌, ◌++◌, ◌∷◌, ◌≤◌, List, ℕ, length, IfOk, IfErr, IfSome, IfNone};
ghost use Rattle.std.specs.List.{flat_map, AllByRecursion};
ghost use Rattle.os_code.specs.declared.instr.Instr.{Instr as CodeInstr};
ghost use Rattle.os_code.specs.declared.site.Site.{Site as CodeSite};
ghost use Rattle.os_code.specs.declared.site.SiteItem.{SiteItem as CodeItem};
ghost use Rattle.os_code.specs.declared.unit.CodeUnit.{CodeUnit};
ghost use Rattle.os_code.specs.declared.parts.Parts.{Parts as CodeParts};
ghost use Rattle.os_object.specs.Fronts.{IsObjectRefused};
ghost use Rattle.os_object.specs.Object.{list_of, slot_numbers, window_number, write_number, item_numbers, site_numbers, unit_numbers, instr_numbers};
ghost use Rattle.os_object.specs.Object.{parts_numbers, IsInstr};

use crate::object_error::ObjectError;
use crate::reading_lists::{read_instrs, read_sites, read_units};
use os_code::Parts;
use std::alloc::Global;

/// The parts that the numbers are, all of them.
pub(crate) fn read_parts(alloc: Global, numbers: &[u32]) -> Result<Parts, ObjectError>
    ensures ok { IfOk result (λ parts. AllByRecursion IsInstr parts.instrs × (numbers.now ≡ parts_numbers parts)) }
    ensures err { IfErr result (λ error. IsObjectRefused error ((parts : CodeParts) → numbers.now ≡ parts_numbers parts → ⊥)) }
{
    let [streams, main, rest @ ..] = numbers else {
        return Err(ObjectError::Format);
    };
    let (units, rest) = read_units(alloc, rest)?;
    let (sites, rest) = read_sites(alloc, rest)?;
    let (instrs, rest) = read_instrs(alloc, rest)?;
    if !rest.is_empty() {
        return Err(ObjectError::Format);
    }
    Ok(Parts {
        instrs,
        units,
        sites,
        main: *main,
        streams: *streams,
    })
}
