//! The numbers of the names that mean something in every program, in the order of `FIXED_NAMES`.

/// `omp`
pub const OMP: u32 = 0;
/// `task`
pub const TASK: u32 = 1;
/// `tick`
pub const TICK: u32 = 2;
/// `taskwait`
pub const TASKWAIT: u32 = 3;
/// `input`
pub const INPUT: u32 = 4;
/// `output`
pub const OUTPUT: u32 = 5;
/// `firstprivate`
pub const FIRSTPRIVATE: u32 = 6;
/// `stream`
pub const STREAM: u32 = 7;
/// `main`
pub const MAIN: u32 = 8;
/// `osin`
pub const OSIN: u32 = 9;
/// `osout`
pub const OSOUT: u32 = 10;
/// `osin_len`
pub const OSIN_LEN: u32 = 11;

/// The first number of the names that are a text's own.
pub const FIRST_OWN_ID: u32 = 12;
