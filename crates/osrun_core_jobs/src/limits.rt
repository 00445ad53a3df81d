//! How long a trace may be, what a job of `gen` may ask for, and on which terms a program is run where nothing else is asked for.

/// The most bytes of a trace.
pub(crate) const TRACE_LIMIT: u64 = 4_194_304;
/// The greatest seed of a job of `gen`.
pub const SEED_LIMIT: u32 = 4_294_967_295;
/// The most blocks, of four bytes each, that a job of `gen` makes; it makes one at least.
pub const BLOCKS_LIMIT: u32 = 65_536;
/// How many workers make a run where nothing else is asked for.
pub const DEFAULT_WORKERS: u32 = 4;
/// How many turns each task may take, and how many the control program, where nothing else is asked for.
pub const DEFAULT_BUDGET: u64 = 1_000_000;
