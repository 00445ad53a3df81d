//! The edge of the program: where bytes come in and go out, and the list on which the other
//! crates stand.
//!
//! `Files` and `Sink` say by ghost members what can be known of files and of a sink: how often
//! calls failed, how many bytes were given or taken, and which bytes, where that is told.
//! `read_whole` and `write_whole` are the two calls that a program makes of them. Their contracts
//! say exactly when a file is too long, and tie each failure to a count that rose in the call.
//!
//! `MemFiles` and `MemSink` are files and a sink in memory, which tell their bytes and whose calls
//! fail where a test says so. `HostFiles` and `HostSink` are those of the host: they tell no bytes,
//! and that they do what the host is asked for rests on std and on a test each.
//!
//! A `List` is a vector that contracts see as the list of its items, and a `Room` one that took its memory before,
//! so that adding to it can't be refused. `Memory` is want of memory,
//! the one answer that no clause ties to a cause. `parse_decimal` reads a number that stands in decimals.
//! `arguments` has the words of the call, and `stand_in` takes the place of a standard stream that the caller closed.
#![tactic(auto)]

mod calls;
mod errors;
mod files;
mod host_files;
mod host_sink;
mod limits;
mod list;
mod mem_files;
mod mem_sink;
mod numbers;
mod process;
mod reading;
mod room;
mod sink;
mod writing;

pub use errors::{Failed, Memory};
pub use files::Files;
pub use host_files::HostFiles;
pub use host_sink::HostSink;
pub use limits::READ_LIMIT;
pub use list::List;
pub use mem_files::MemFiles;
pub use mem_sink::MemSink;
pub use numbers::parse_decimal;
pub use process::{arguments, stand_in};
pub use reading::{Loaded, ReadError, read_whole};
pub use room::Room;
pub use sink::Sink;
pub use writing::{WriteError, write_whole};
