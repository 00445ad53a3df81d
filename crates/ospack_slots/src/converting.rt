ghost use Rattle.std.specs.Prelude.{◌≡◌, ◌≢◌, ◌≤◌, length, IsErrOf, Err};
ghost use Rattle.os_io.specs.Counts.{HasRisen};
ghost use Rattle.os_io.specs.declared.writing.WriteError.TheVariants as write_error;
ghost use Rattle.ospack_slots.specs.Formats.{format_of};
ghost use Rattle.ospack_slots.specs.Answers.{AnswersFor};
ghost use Rattle.ospack_slots.specs.Limits.{slot_limit};
ghost use Rattle.ospack_slots.specs.Turns.{IsTurn};

use crate::errors::PackError;
use crate::packing::pack_next;
use crate::turn::Turn;
use crate::unpacking::unpack_next;
use crate::way::Way;
use os_io::{Files, Sink};

/// Packs or unpacks parts, one after the other, up to the end of the file. The buffer is as long as a slot.
pub(crate) fn convert<F: Files, S: Sink>(
    way: Way,
    files: &mut F,
    out: &mut S,
    slot: &mut [u8],
) -> Result<(), PackError>
    requires low { 2 ≤ length slot.old }
    requires high { length slot.old ≤ slot_limit }
    ensures answer { AnswersFor (format_of way (length slot.old))
        (record { left = F.rest files.old; given = F.given files.old; taken = S.taken out.old })
        (record { left = F.rest files.new; given = F.given files.new; taken = S.taken out.new }) result }
    ensures read { IsErrOf result PackError.Read → HasRisen (F.faults files.old) (F.faults files.new) }
    ensures failed { IsErrOf result (PackError.Write write_error.Failed) → HasRisen (S.faults out.old) (S.faults out.new) }
    ensures stuck { IsErrOf result (PackError.Write write_error.Stuck) →
        HasRisen (S.empty_takes out.old) (S.empty_takes out.new) }
    ensures no_read { result ≢ Err PackError.Read → F.faults files.new ≡ F.faults files.old }
    ensures not_failed { result ≢ Err (PackError.Write write_error.Failed) → S.faults out.new ≡ S.faults out.old }
    ensures not_stuck { result ≢ Err (PackError.Write write_error.Stuck) → S.empty_takes out.new ≡ S.empty_takes out.old }
    ensures opens { F.opens files.new ≡ F.opens files.old }
    ensures holds { F.holds files.new ≡ F.holds files.old }
    ensures may { F.may files.new ≡ F.may files.old }
{
    for number in 0..u64::MAX {
        let turn = convert_next(way, files, out, slot, number)?;
        match turn {
            Turn::Done => {}
            Turn::End => return Ok(()),
        }
    }
    Err(PackError::Uncounted)
}

/// Packs or unpacks the next part, if there is one.
fn convert_next<F: Files, S: Sink>(
    way: Way,
    files: &mut F,
    out: &mut S,
    slot: &mut [u8],
    number: u64,
) -> Result<Turn, PackError>
    requires low { 2 ≤ length slot.old }
    requires high { length slot.old ≤ slot_limit }
    ensures turn { IsTurn (format_of way (length slot.old)) number
        (record { left = F.rest files.old; given = F.given files.old; taken = S.taken out.old })
        (record { left = F.rest files.new; given = F.given files.new; taken = S.taken out.new }) result }
    ensures read { IsErrOf result PackError.Read → HasRisen (F.faults files.old) (F.faults files.new) }
    ensures failed { IsErrOf result (PackError.Write write_error.Failed) → HasRisen (S.faults out.old) (S.faults out.new) }
    ensures stuck { IsErrOf result (PackError.Write write_error.Stuck) →
        HasRisen (S.empty_takes out.old) (S.empty_takes out.new) }
    ensures no_read { result ≢ Err PackError.Read → F.faults files.new ≡ F.faults files.old }
    ensures not_failed { result ≢ Err (PackError.Write write_error.Failed) → S.faults out.new ≡ S.faults out.old }
    ensures not_stuck { result ≢ Err (PackError.Write write_error.Stuck) → S.empty_takes out.new ≡ S.empty_takes out.old }
    ensures opens { F.opens files.new ≡ F.opens files.old }
    ensures holds { F.holds files.new ≡ F.holds files.old }
    ensures may { F.may files.new ≡ F.may files.old }
{
    match way {
        Way::Packing => pack_next(files, out, slot, number),
        Way::Unpacking => unpack_next(files, out, slot, number),
    }
}
