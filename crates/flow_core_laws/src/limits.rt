//! How large a run may be, and what it may be asked for.

/// The most bytes of an input.
pub const INPUT_LIMIT: u32 = 4_194_304;
/// The most activations of a run.
pub const ACTIVATIONS_LIMIT: u32 = 65_536;
/// The greatest number of an activation, counted from 0 on.
pub const LAST_ACTIVATION: u32 = 65_535;
/// The most positions that the windows of a run cover together.
pub const POSITIONS_LIMIT: u32 = 4_194_304;
/// The most positions that a window covers.
pub const HORIZON_LIMIT: u32 = 65_536;
/// The most positions by which a burst or a tick moves a cursor.
pub const MOVE_LIMIT: u32 = 65_536;
/// The most workers of a run.
pub const WORKERS_LIMIT: u32 = 64;
/// The most turns of a budget.
pub const BUDGET_LIMIT: u64 = 1_000_000_000;
