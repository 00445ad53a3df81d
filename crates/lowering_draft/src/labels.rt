//! Labels give way to their places.

ghost use Rattle.std.specs.Prelude.{◌≡◌, map};
ghost use Rattle.lowering_draft.specs.Draft.{with_places};
ghost use Rattle.lowering_draft.specs.Emission.Units.{place_in, resolved};

use crate::draft::Draft;
use os_code::Instr;
use os_io::List;

/// The instructions of a draft, in which each label gives way to its place.
pub fn resolve(draft: Draft) -> List<Instr>
    ensures { result ≡ resolved draft }
{
    let Draft {
        instrs,
        places,
        spawned: _,
    } = draft;
    let mut instrs = instrs;
    resolve_all(instrs.as_mut_slice(), places.as_slice());
    instrs
}

/// Puts the places of labels into all jumps.
fn resolve_all(instrs: &mut [Instr], places: &[Option<u32>])
    ensures { instrs.new ≡ map (with_places (place_in places.now)) instrs.old }
{
    for at in 0..instrs.len() {
        instrs[at] = resolve_one(instrs[at], places);
    }
}

/// An instruction with the place of its label.
fn resolve_one(instr: Instr, places: &[Option<u32>]) -> Instr
    ensures { result ≡ with_places (place_in places.now) instr }
{
    match instr {
        Instr::Jump(label) => Instr::Jump(place_of(label, places)),
        Instr::JumpZero(label) => Instr::JumpZero(place_of(label, places)),
        Instr::Push(_)
        | Instr::Drop
        | Instr::Copy
        | Instr::Load(_)
        | Instr::Store(_)
        | Instr::Zero { .. }
        | Instr::CheckAt { .. }
        | Instr::LoadAt { .. }
        | Instr::StoreAt { .. }
        | Instr::ItemCheck { .. }
        | Instr::ItemLoad { .. }
        | Instr::ItemStore { .. }
        | Instr::Unary { .. }
        | Instr::Binary { .. }
        | Instr::Turn
        | Instr::Call(_)
        | Instr::Return
        | Instr::End
        | Instr::Window { .. }
        | Instr::BurstIn { .. }
        | Instr::BurstOut { .. }
        | Instr::Spawn(_)
        | Instr::Tick(_) => instr,
    }
}

/// The place of a label, or 0 where it has none.
fn place_of(label: u32, places: &[Option<u32>]) -> u32
    ensures { result ≡ place_in places.now label }
{
    match places.get(label as usize) {
        Some(Some(place)) => *place,
        Some(None) | None => 0,
    }
}
