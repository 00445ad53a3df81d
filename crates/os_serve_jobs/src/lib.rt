//! Jobs as lines of a file, and answers to them as text: what a server reads and writes.
//!
//! A `Reading` opens a file of jobs and cuts what it is given into lines, some at a time; how it stands says whether more may
//! come, and why not. It holds the line that has begun and one piece of the file, whatever the file's length. `words_of` has the
//! words of a line. A `MemorySink` is a sink in memory that grows as it is written to, up to its room.
//!
//! Which bytes are lines, what a line's words are, and what an answer looks like are definitions of this crate; what the jobs are
//! answered is none of its business. `laws` say that a file has one list of jobs, and that what is read of it are the first ones.
#![tactic(auto)]

mod cutting;
mod input_state;
pub mod laws;
mod memory_sink;
mod reading;
mod words;

pub use input_state::InputState;
pub use memory_sink::{MemorySink, OUTPUT_ROOM};
pub use reading::{Reading, take_first};
pub use words::words_of;
