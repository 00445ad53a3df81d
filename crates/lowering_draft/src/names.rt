//! What names mean, as instructions and as numbers in the code.

ghost use Rattle.std.specs.Prelude.{◌≡◌, OnOk, true};
ghost use Rattle.lowering_draft.specs.Draft.{with_instrs};
ghost use Rattle.lowering_relation.specs.Names.{aiming, calling, checking_at, count_of, fetching_at, first_of, reading, reading_at, storing, storing_at};
ghost use Rattle.lowering_relation.specs.Tasks.{bursting, slot_of};

use crate::draft::Draft;
use os_ast::{Direction, What};
use os_code::Instr;
use os_io::Memory;

/// Adds the code that reads a name without an index. The one element of an item has index 0.
pub fn emit_reading(draft: &mut Draft, what: What, line: u32) -> Result<(), Memory>
    ensures { OnOk result (draft.new ≡ with_instrs draft.old (reading what line)) }
{
    match what {
        What::Constant(value) => draft.emit(Instr::Push(value)),
        What::Scalar(slot) => draft.emit(Instr::Load(slot)),
        What::Element(item) | What::View(item) => {
            draft.emit(Instr::Push(0))?;
            draft.emit(Instr::ItemLoad { item, line })
        }
        What::Function(_) | What::Array { .. } | What::Window(_) | What::Stream { .. } =>
            draft.emit(Instr::Push(0)),
    }
}

/// The instruction that reads a name whose index is on the stack.
pub fn reading_at(what: What, line: u32) -> Instr
    ensures { result ≡ reading_at what line }
{
    match what {
        What::Array { first, size } => Instr::LoadAt { first, size, line },
        What::Element(item) | What::View(item) => Instr::ItemLoad { item, line },
        What::Constant(_)
        | What::Function(_)
        | What::Scalar(_)
        | What::Window(_)
        | What::Stream { .. } => Instr::LoadAt {
            first: 0,
            size: 0,
            line,
        },
    }
}

/// The instruction that calls a function.
pub fn calling(what: What) -> Instr
    ensures { result ≡ calling what }
{
    match what {
        What::Function(number) => Instr::Call(number),
        What::Constant(_)
        | What::Scalar(_)
        | What::Array { .. }
        | What::Window(_)
        | What::Stream { .. }
        | What::Element(_)
        | What::View(_) => Instr::Drop,
    }
}

/// Adds the code that loads the element at the index on the stack, and leaves the index below it.
pub fn emit_element(draft: &mut Draft, what: What, line: u32) -> Result<(), Memory>
    ensures { OnOk result (draft.new ≡ with_instrs draft.old (fetching_at true what line)) }
{
    draft.emit(Instr::Copy)?;
    draft.emit(reading_at(what, line))
}

/// Adds the index where the target has none in the text: the one element of an item has index 0.
pub fn emit_aiming(draft: &mut Draft, what: What) -> Result<(), Memory>
    ensures { OnOk result (draft.new ≡ with_instrs draft.old (aiming what)) }
{
    match what {
        What::Element(_) | What::View(_) => draft.emit(Instr::Push(0)),
        What::Constant(_)
        | What::Function(_)
        | What::Scalar(_)
        | What::Array { .. }
        | What::Window(_)
        | What::Stream { .. } => Ok(()),
    }
}

/// The instruction that checks an index and leaves it on the stack.
pub fn checking_at(what: What, line: u32) -> Instr
    ensures { result ≡ checking_at what line }
{
    match what {
        What::Array { first: _, size } => Instr::CheckAt { size, line },
        What::Element(item) | What::View(item) => Instr::ItemCheck { item, line },
        What::Constant(_)
        | What::Function(_)
        | What::Scalar(_)
        | What::Window(_)
        | What::Stream { .. } => Instr::CheckAt { size: 0, line },
    }
}

/// The instruction that stores into a name without an index.
pub fn storing(what: What, line: u32) -> Instr
    ensures { result ≡ storing what line }
{
    match what {
        What::Scalar(slot) => Instr::Store(slot),
        What::Element(item) | What::View(item) => Instr::ItemStore { item, line },
        What::Constant(_)
        | What::Function(_)
        | What::Array { .. }
        | What::Window(_)
        | What::Stream { .. } => Instr::Drop,
    }
}

/// The instruction that stores into a name whose index stands below the value.
pub fn storing_at(what: What, line: u32) -> Instr
    ensures { result ≡ storing_at what line }
{
    match what {
        What::Array { first, size } => Instr::StoreAt { first, size, line },
        What::Element(item) | What::View(item) => Instr::ItemStore { item, line },
        What::Constant(_)
        | What::Function(_)
        | What::Scalar(_)
        | What::Window(_)
        | What::Stream { .. } => Instr::StoreAt {
            first: 0,
            size: 0,
            line,
        },
    }
}

/// The instruction that checks a burst: that of an output item has to be the horizon of its window.
pub fn bursting(direction: Direction, window: What, line: u32) -> Instr
    ensures { result ≡ bursting direction window line }
{
    match direction {
        Direction::Reads => Instr::BurstIn { line },
        Direction::Writes => match window {
            What::Window(slot) => Instr::BurstOut { slot, line },
            What::Constant(_)
            | What::Function(_)
            | What::Scalar(_)
            | What::Array { .. }
            | What::Stream { .. }
            | What::Element(_)
            | What::View(_) => Instr::BurstIn { line },
        },
    }
}

/// The first number of a stream or of an array of streams.
pub fn first_of(what: What) -> u32
    ensures { result ≡ first_of what }
{
    match what {
        What::Stream { first, count: _ } => first,
        What::Constant(_)
        | What::Function(_)
        | What::Scalar(_)
        | What::Array { .. }
        | What::Window(_)
        | What::Element(_)
        | What::View(_) => 0,
    }
}

/// How many streams a name stands for; 0 where it stands for something else.
pub fn count_of(what: What) -> u32
    ensures { result ≡ count_of what }
{
    match what {
        What::Stream { first: _, count } => count,
        What::Constant(_)
        | What::Function(_)
        | What::Scalar(_)
        | What::Array { .. }
        | What::Window(_)
        | What::Element(_)
        | What::View(_) => 0,
    }
}

pub(crate) fn slot_of(what: What) -> Option<u32>
    ensures { result ≡ slot_of what }
{
    match what {
        What::Window(slot) => Some(slot),
        What::Constant(_)
        | What::Function(_)
        | What::Scalar(_)
        | What::Array { .. }
        | What::Stream { .. }
        | What::Element(_)
        | What::View(_) => None,
    }
}
