//! What kind each unit is of: `main`, the task of one site, or a function.

ghost use Rattle.std.specs.Prelude.{◌≡◌, ◌<◌, length, IfOk, IfSome, IfNone};
ghost use Rattle.os_code.specs.Effects as effects;
ghost use Rattle.os_code.specs.IsValid.{IsValid};
ghost use Rattle.os_code.specs.Parts.{kind_at, UnitKind as CodeKind};
ghost use Rattle.os_object_validity.specs.Tables.{AreTasks, TasksDistinct, kind_name, items_of as items_named};

use os_code::{Instr, Parts, SiteItem};
use os_io::Memory;
use std::alloc::Global;

/// What kind a unit is of.
#[derive(Clone, Copy, Debug, PartialEq, Eq)]
pub(crate) enum UnitKind {
    Main,
    Task,
    Function,
}

/// The site of each unit that is a task's; or none, where a site's unit isn't there or is another site's too.
pub(crate) fn tasks_of(alloc: Global, parts: &Parts) -> Result<Option<Vec<Option<usize>>>, Memory>
    ensures some { IfOk result (λ found. IfSome found (λ tasks. AreTasks parts.now tasks.items × TasksDistinct parts.now)) }
    ensures none { IfOk result (λ found. IfNone found (IsValid parts.now → ⊥)) }
{
    let mut tasks = vec![in alloc; None; parts.units.len()]?;
    for (number, site) in parts.sites.as_slice().iter().enumerate() {
        let unit = site.unit as usize;
        if unit >= tasks.len() {
            return Ok(None);
        }
        if let Some(_other) = tasks[unit] {
            return Ok(None);
        }
        tasks[unit] = Some(number);
    }
    Ok(Some(tasks))
}

/// The kind of a unit.
pub(crate) fn kind_of(parts: &Parts, tasks: &[Option<usize>], number: usize) -> UnitKind
    requires told { AreTasks parts.now tasks.now }
    requires there { number < length parts.now.units }
    ensures { result ≡ kind_name (kind_at parts.now number) }
{
    if number == parts.main as usize {
        return UnitKind::Main;
    }
    match tasks[number] {
        Some(_) => UnitKind::Task,
        None => UnitKind::Function,
    }
}

/// The items that the instructions of a unit may name.
pub(crate) fn items_of<'a>(
    parts: &'a Parts,
    tasks: &[Option<usize>],
    number: usize,
) -> &'a [SiteItem]
    requires told { AreTasks parts.now tasks.now }
    requires there { number < length parts.now.units }
    ensures { result.now ≡ items_named (kind_at parts.now number) }
{
    if number == parts.main as usize {
        return &[];
    }
    match tasks[number] {
        Some(site) => parts.sites.as_slice()[site].items.as_slice(),
        None => &[],
    }
}

/// Whether an instruction stands in its kinds of unit: `Window`, `BurstIn`, `BurstOut`, `Spawn` and `Tick` in `main` alone,
/// `ItemCheck`, `ItemLoad` and `ItemStore` in tasks alone, `Return` in functions alone, and `End` in no function.
pub(crate) fn stands_in(kind: UnitKind, instr: Instr) -> bool
    ensures { (at : CodeKind) → kind_name at ≡ kind → result ≡ effects.stands_in at instr }
{
    match instr {
        Instr::Window { .. }
        | Instr::BurstIn { .. }
        | Instr::BurstOut { .. }
        | Instr::Spawn(_)
        | Instr::Tick(_) => kind == UnitKind::Main,
        Instr::ItemCheck { .. } | Instr::ItemLoad { .. } | Instr::ItemStore { .. } => kind
            == UnitKind::Task,
        Instr::Return => kind == UnitKind::Function,
        Instr::End => kind != UnitKind::Function,
        _ => true,
    }
}
