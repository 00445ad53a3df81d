//! Units, captured slots and items at the front of numbers.

ghost use Rattle.std.specs.Prelude.{◌≡◌, ◌++◌, ◌∷◌, ◌≤◌, List, ℕ, length, IfOk, IfErr, IfSome, IfNone};
ghost use Rattle.std.specs.List.{flat_map, AllByRecursion};
ghost use Rattle.os_code.specs.declared.instr.Instr.{Instr as CodeInstr};
ghost use Rattle.os_code.specs.declared.site.Site.{Site as CodeSite};
ghost use Rattle.os_code.specs.declared.site.SiteItem.{SiteItem as CodeItem};
ghost use Rattle.os_code.specs.declared.unit.CodeUnit.{CodeUnit};
ghost use Rattle.os_code.specs.declared.parts.Parts.{Parts as CodeParts};
ghost use Rattle.os_object.specs.Fronts.{IsObjectRefused};
ghost use Rattle.os_object.specs.Object.{list_of, slot_numbers, window_number, write_number, item_numbers, site_numbers, unit_numbers, instr_numbers};
ghost use Rattle.os_object.specs.Object.{parts_numbers, IsInstr};

use os_code::{CodeUnit, SiteItem};

/// The unit at the front, and the numbers behind it.
pub(crate) fn read_unit(numbers: &[u32]) -> Option<(CodeUnit, &[u32])>
    ensures some { IfSome result (λ read. numbers.now ≡ unit_numbers read.0 ++ read.1.now) }
    ensures none { IfNone result ((unit : CodeUnit) (rest : List ℕ) → numbers.now ≡ unit_numbers unit ++ rest → ⊥) }
{
    let [start, args, slots, stack, rest @ ..] = numbers else {
        return None;
    };
    let unit = CodeUnit {
        start: *start,
        args: *args,
        slots: *slots,
        stack: *stack,
    };
    Some((unit, rest))
}

/// The captured slot at the front, and the numbers behind it.
pub(crate) fn read_slot(numbers: &[u32]) -> Option<(u32, &[u32])>
    ensures some { IfSome result (λ read. numbers.now ≡ slot_numbers read.0 ++ read.1.now) }
    ensures none { IfNone result ((slot : ℕ) (rest : List ℕ) → numbers.now ≡ slot_numbers slot ++ rest → ⊥) }
{
    let [slot, rest @ ..] = numbers else {
        return None;
    };
    Some((*slot, rest))
}

/// The item at the front, and the numbers behind it.
pub(crate) fn read_item(numbers: &[u32]) -> Option<(SiteItem, &[u32])>
    ensures some { IfSome result (λ read. numbers.now ≡ item_numbers read.0 ++ read.1.now) }
    ensures none { IfNone result ((item : CodeItem) (rest : List ℕ) → numbers.now ≡ item_numbers item ++ rest → ⊥) }
{
    match numbers {
        [0, stream, window, rest @ ..] => Some((item_of(false, *stream, *window), rest)),
        [1, stream, window, rest @ ..] => Some((item_of(true, *stream, *window), rest)),
        _ => None,
    }
}

/// The item whose window has this number: 0, or the slot plus 1.
fn item_of(write: bool, stream: u32, window: u32) -> SiteItem
    ensures write { result.write ≡ write }
    ensures stream { result.stream ≡ stream }
    ensures window { window_number result.window ≡ window }
{
    SiteItem {
        write,
        stream,
        window: window.checked_sub(1),
    }
}
