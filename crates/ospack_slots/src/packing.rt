ghost use Rattle.std.specs.Prelude.{◌≡◌, ◌≢◌, ◌≤◌, length, IsErrOf, Err};
ghost use Rattle.os_io.specs.Counts.{HasRisen};
ghost use Rattle.os_io.specs.declared.writing.WriteError.TheVariants as write_error;
ghost use Rattle.ospack_slots.specs.Formats.{packing};
ghost use Rattle.ospack_slots.specs.Answers.{AnswersFor};
ghost use Rattle.ospack_slots.specs.Limits.{slot_limit};
ghost use Rattle.ospack_slots.specs.Turns.{IsTurn};

use crate::converting::convert;
use crate::errors::{PackError, SlotFault};
use crate::filling::fill_part;
use crate::length::length_at_front;
use crate::turn::Turn;
use crate::way::Way;
use os_io::{Files, Sink, write_whole};
use std::alloc::Global;

/// Packs the current file, which is slots of `size` bytes, and writes the length and the bytes of each. It streams: one slot is
/// read and written at a time, in one buffer of `size` bytes that is taken before anything is read. What stands before a slot
/// that is refused was written.
pub fn pack<F: Files, S: Sink>(
    alloc: Global,
    files: &mut F,
    out: &mut S,
    size: u32,
) -> Result<(), PackError>
    requires low { 2 ≤ size }
    requires high { size ≤ slot_limit }
    // What was read and written.
    ensures answer { AnswersFor (packing size)
        (record { left = F.rest files.old; given = F.given files.old; taken = S.taken out.old })
        (record { left = F.rest files.new; given = F.given files.new; taken = S.taken out.new }) result }
    // The cause of each fault, and the counts otherwise.
    ensures read { IsErrOf result PackError.Read → HasRisen (F.faults files.old) (F.faults files.new) }
    ensures failed { IsErrOf result (PackError.Write write_error.Failed) → HasRisen (S.faults out.old) (S.faults out.new) }
    ensures stuck { IsErrOf result (PackError.Write write_error.Stuck) →
        HasRisen (S.empty_takes out.old) (S.empty_takes out.new) }
    ensures no_read { result ≢ Err PackError.Read → F.faults files.new ≡ F.faults files.old }
    ensures not_failed { result ≢ Err (PackError.Write write_error.Failed) → S.faults out.new ≡ S.faults out.old }
    ensures not_stuck { result ≢ Err (PackError.Write write_error.Stuck) → S.empty_takes out.new ≡ S.empty_takes out.old }
    // What stays.
    ensures opens { F.opens files.new ≡ F.opens files.old }
    ensures holds { F.holds files.new ≡ F.holds files.old }
    ensures may { F.may files.new ≡ F.may files.old }
{
    let mut slot = Vec::new(alloc);
    slot.resize(size as usize, 0)?;
    convert(Way::Packing, files, out, &mut slot)
}

/// Packs the next slot, if there is one.
pub(crate) fn pack_next<F: Files, S: Sink>(
    files: &mut F,
    out: &mut S,
    slot: &mut [u8],
    number: u64,
) -> Result<Turn, PackError>
    requires low { 2 ≤ length slot.old }
    requires high { length slot.old ≤ slot_limit }
    ensures turn { IsTurn (packing (length slot.old)) number
        (record { left = F.rest files.old; given = F.given files.old; taken = S.taken out.old })
        (record { left = F.rest files.new; given = F.given files.new; taken = S.taken out.new }) result }
    ensures read { IsErrOf result PackError.Read → HasRisen (F.faults files.old) (F.faults files.new) }
    ensures failed { IsErrOf result (PackError.Write write_error.Failed) → HasRisen (S.faults out.old) (S.faults out.new) }
    ensures stuck { IsErrOf result (PackError.Write write_error.Stuck) →
        HasRisen (S.empty_takes out.old) (S.empty_takes out.new) }
    ensures no_read { result ≢ Err PackError.Read → F.faults files.new ≡ F.faults files.old }
    ensures not_failed { result ≢ Err (PackError.Write write_error.Failed) → S.faults out.new ≡ S.faults out.old }
    ensures not_stuck { result ≢ Err (PackError.Write write_error.Stuck) → S.empty_takes out.new ≡ S.empty_takes out.old }
    ensures opens { F.opens files.new ≡ F.opens files.old }
    ensures holds { F.holds files.new ≡ F.holds files.old }
    ensures may { F.may files.new ≡ F.may files.old }
{
    let count = fill_part(files, slot, 0, slot.len())?;
    if count == 0 {
        return Ok(Turn::End);
    }
    if count < slot.len() {
        return Err(PackError::Slot {
            number,
            fault: SlotFault::EndsEarly,
        });
    }
    let length = length_at_front(slot);
    let past = length as usize + 2;
    if slot.len() < past {
        return Err(PackError::Slot {
            number,
            fault: SlotFault::TooLong { length },
        });
    }
    write_whole(out, &slot[..past])?;
    Ok(Turn::Done)
}
