/// How many bytes a slot has at most, as many as a window has elements.
pub const SLOT_LIMIT: u32 = 65_536;
