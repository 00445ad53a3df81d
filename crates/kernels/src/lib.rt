//! Six small programs of the language, and bytes to run them over.
//!
//! The texts show each way in which tasks take their windows: in blocks, overlapping, through a stream
//! of the program's own, through an array of streams. `generate` makes bytes from a seed, the same on
//! every machine; its promise is the recurrence itself.
#![tactic(auto)]

mod generator;
mod texts;

pub use generator::generate;
pub use texts::{BROADCAST, INVERT, LIFT, PIPELINE, SMOOTH, UNLIFT};
