//! What each instruction takes and leaves, names and asks of where it stands.

ghost use Rattle.std.specs.Prelude.{◌≡◌};
ghost use Rattle.os_code.specs.Checking.{called_of as called, spawned_of as spawned, ticked_of as ticked, stored_of as stored};
ghost use Rattle.os_code.specs.Effects as effects;

use os_code::{Instr, Parts};

/// How many operands an instruction needs on the stack, those that it only looks at included.
pub(crate) fn operands_of(parts: &Parts, instr: Instr) -> usize
    ensures { result ≡ effects.operands_of parts.now instr }
{
    match instr {
        Instr::Push(_)
        | Instr::Load(_)
        | Instr::Zero { .. }
        | Instr::Jump(_)
        | Instr::Turn
        | Instr::End => 0,
        Instr::Drop
        | Instr::Copy
        | Instr::Store(_)
        | Instr::CheckAt { .. }
        | Instr::LoadAt { .. }
        | Instr::ItemCheck { .. }
        | Instr::ItemLoad { .. }
        | Instr::Unary { .. }
        | Instr::JumpZero(_)
        | Instr::Return
        | Instr::Window { .. }
        | Instr::BurstIn { .. }
        | Instr::BurstOut { .. } => 1,
        Instr::StoreAt { .. } | Instr::ItemStore { .. } | Instr::Binary { .. } | Instr::Tick(_) =>
            2,
        Instr::Call(callee) => args_of(parts, callee),
        Instr::Spawn(site) => pairs_of(parts, site),
    }
}

/// How many arguments the unit with this number takes.
fn args_of(parts: &Parts, number: u32) -> usize
    ensures { result ≡ effects.operands_of parts.now (Instr.Call number) }
{
    match parts.units.as_slice().get(number as usize) {
        Some(unit) => unit.args as usize,
        None => 0,
    }
}

/// A stream index and a burst for each item of a site.
#[tactic(auto, using(crate::proofs::Elements::pairs))]
fn pairs_of(parts: &Parts, number: u32) -> usize
    ensures { result ≡ effects.operands_of parts.now (Instr.Spawn number) }
{
    let sites = parts.sites.as_slice();
    let number = number as usize;
    if number >= sites.len() {
        return 0;
    }
    2 * sites[number].items.as_slice().len()
}

/// How many operands stand there in their place.
pub(crate) fn pushes(instr: Instr) -> usize
    ensures { result ≡ effects.pushes instr }
{
    match instr {
        Instr::Push(_)
        | Instr::Load(_)
        | Instr::CheckAt { .. }
        | Instr::LoadAt { .. }
        | Instr::ItemCheck { .. }
        | Instr::ItemLoad { .. }
        | Instr::Unary { .. }
        | Instr::Binary { .. }
        | Instr::Call(_)
        | Instr::BurstIn { .. }
        | Instr::BurstOut { .. } => 1,
        Instr::Copy => 2,
        Instr::Drop
        | Instr::Store(_)
        | Instr::Zero { .. }
        | Instr::StoreAt { .. }
        | Instr::ItemStore { .. }
        | Instr::Jump(_)
        | Instr::JumpZero(_)
        | Instr::Turn
        | Instr::Return
        | Instr::End
        | Instr::Window { .. }
        | Instr::Spawn(_)
        | Instr::Tick(_) => 0,
    }
}

/// Where an instruction may jump to.
pub(crate) fn jump_of(instr: Instr) -> Option<u32>
    ensures { result ≡ effects.jump_of instr }
{
    match instr {
        Instr::Jump(to) | Instr::JumpZero(to) => Some(to),
        _ => None,
    }
}

/// Whether an instruction may go on to the next place.
pub(crate) fn falls_through(instr: Instr) -> bool
    ensures { result ≡ effects.falls_through instr }
{
    !matches!(instr, Instr::Jump(_) | Instr::Return | Instr::End)
}

/// Whether an instruction stands directly after a `Turn`.
pub(crate) fn needs_turn(instr: Instr) -> bool
    ensures { result ≡ effects.needs_turn instr }
{
    matches!(instr, Instr::Call(_) | Instr::Tick(_))
}

/// The number past the last slot that an instruction names.
pub(crate) fn slots_named(instr: Instr) -> u64
    ensures { result ≡ effects.slots_named instr }
{
    match instr {
        Instr::Load(slot)
        | Instr::Store(slot)
        | Instr::Window { slot, .. }
        | Instr::BurstOut { slot, .. } => u64::from(slot) + 1,
        Instr::Zero { first, count } => u64::from(first) + u64::from(count),
        Instr::LoadAt { first, size, .. } | Instr::StoreAt { first, size, .. } => {
            u64::from(first) + u64::from(size)
        }
        _ => 0,
    }
}

/// The unit that an instruction calls.
pub(crate) fn called_of(instr: Instr) -> Option<u32>
    ensures { result ≡ called instr }
{
    match instr {
        Instr::Call(callee) => Some(callee),
        _ => None,
    }
}

/// The site at which an instruction creates an activation.
pub(crate) fn spawned_of(instr: Instr) -> Option<u32>
    ensures { result ≡ spawned instr }
{
    match instr {
        Instr::Spawn(site) => Some(site),
        _ => None,
    }
}

/// The first stream number that an instruction counts from.
pub(crate) fn ticked_of(instr: Instr) -> Option<u32>
    ensures { result ≡ ticked instr }
{
    match instr {
        Instr::Tick(stream) => Some(stream),
        _ => None,
    }
}

/// The item that an instruction names.
pub(crate) fn item_of(instr: Instr) -> Option<u32>
    ensures { result ≡ effects.item_of instr }
{
    match instr {
        Instr::ItemCheck { item, .. }
        | Instr::ItemLoad { item, .. }
        | Instr::ItemStore { item, .. } => Some(item),
        _ => None,
    }
}

/// The item that an instruction stores into.
pub(crate) fn stored_of(instr: Instr) -> Option<u32>
    ensures { result ≡ stored instr }
{
    match instr {
        Instr::ItemStore { item, .. } => Some(item),
        _ => None,
    }
}
