//! What packing and unpacking are to one another. The laws take nothing and do nothing.

ghost use Rattle.ospack_slots.specs.Formats.{packing, unpacking};
ghost use Rattle.ospack_slots.specs.Laws.{PacksToPieces, UnpacksToSlots, PacksBack, NeverGrows, DividesOnce, UnendedIsShort};

/// Unpacking gives back what was packed, but for what a slot ignores, and packing never adds bytes.
pub fn unpacks_what_was_packed()
    ensures packed { PacksToPieces }
    ensures unpacked { UnpacksToSlots }
    ensures back { PacksBack }
    ensures saves { NeverGrows }
{}

/// An input has one answer: it is slots, or pieces, with one list of payloads, and then ends or is refused in one way.
pub fn inputs_have_one_answer()
    ensures slots { DividesOnce packing }
    ensures pieces { DividesOnce unpacking }
{}

/// Where a read fails, fewer bytes than a slot has were read and not written.
pub fn less_than_a_slot_is_lost()
    ensures slots { UnendedIsShort packing }
    ensures pieces { UnendedIsShort unpacking }
{}
