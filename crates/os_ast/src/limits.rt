//! How deep a program may be, and how much it may declare.

/// How deep a program may be.
pub const DEPTH_LIMIT: u32 = 200;
/// The most elements of a local array, and the most streams of an array of streams.
pub const SIZE_LIMIT: u32 = 65_536;
/// The most elements of the local arrays of one function or task.
pub const ELEMENTS_LIMIT: u32 = 65_536;
/// The most elements of the local arrays of a program.
pub const ARRAYS_LIMIT: u32 = 1_048_576;
/// The most streams that a program declares.
pub const STREAMS_LIMIT: u32 = 65_536;
/// The most streams of a program with its input and its output.
pub const ALL_STREAMS_LIMIT: u32 = 65_538;
/// The most slots of all functions and tasks of a program together.
pub const SLOTS_LIMIT: u32 = 2_097_152;
/// The most items of a task.
pub const ITEMS_LIMIT: usize = 8;
/// The most scalars that a task captures.
pub const CAPTURED_LIMIT: usize = 64;
