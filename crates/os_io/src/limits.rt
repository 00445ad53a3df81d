/// The most bytes of a file that is read whole.
pub const READ_LIMIT: u64 = 67_108_864;
