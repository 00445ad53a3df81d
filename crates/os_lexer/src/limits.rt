/// How many bytes a text has at most, and so how many tokens.
pub const TEXT_LIMIT: usize = 262_144;
