//! Slots of a fixed size, and what is packed of them.
//!
//! A coder whose output stream has a length that depends on the input's length alone writes slots: each of the same size,
//! with two bytes of length in front, the lowest first, then as many bytes, and then what is ignored. `pack` reads such slots
//! from the current file and writes the length and the bytes of each; `unpack` reads what was packed and fills each slot up
//! with zeros. Both stream by a slot at a time, in one buffer, and refuse a slot whose length passes it by its number.
//!
//! Their contracts say byte by byte what was read and what the sink took, by each answer. `unpacks_what_was_packed` says
//! that the one undoes the other, up to what a slot ignores, and `inputs_have_one_answer` that an input has no other answer. Where a
//! read fails, what was read and isn't written is the front of one part, so less than a slot (`less_than_a_slot_is_lost`).
#![tactic(auto)]

mod converting;
mod errors;
mod filling;
mod laws;
mod length;
mod limits;
mod packing;
mod padding;
mod turn;
mod unpacking;
mod way;

pub use errors::{PackError, SlotFault};
pub use laws::{inputs_have_one_answer, less_than_a_slot_is_lost, unpacks_what_was_packed};
pub use limits::SLOT_LIMIT;
pub use packing::pack;
pub use unpacking::unpack;
