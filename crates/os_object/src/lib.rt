//! Codes as bytes, to be kept in files: an object is what `encode` writes of a code, and `decode` reads it back.
//!
//! `specs/Object` is the format, as one list of numbers for the parts of a code. No two parts have the same bytes, so
//! what `decode` gives for an object is the code that it was written of; and where `decode` gives a code, the bytes are
//! what `encode` writes of it. `decode` refuses what spells no parts (`Format`), and parts that aren't valid (`Invalid`),
//! each exactly there; so any bytes may be given to it, and any code that it gives runs without being stuck.
//!
//! Both take time and memory in proportion to the bytes: what an object says of its own lengths is believed only as far as
//! there are bytes for it.
#![tactic(auto)]

mod bytes;
mod decoding;
mod encoding;
pub mod laws;
mod object_error;
mod reading;
mod reading_instr;
mod reading_lists;
mod reading_members;
mod writing;
mod writing_instr;

pub use decoding::decode;
pub use encoding::encode;
pub use object_error::ObjectError;
