/// A claim of an activation with its positions. The order of the fields keeps it at 24 bytes: a run holds one for each claim to its end.
#[derive(Clone, Copy, Debug, PartialEq, Eq)]
pub struct Span {
    /// The first position that it covers.
    pub first: u64,
    /// How many positions it covers.
    pub count: u32,
    /// Its place among the inputs or among the outputs of the activation.
    pub offset: u32,
    pub stream: u32,
    /// The activation, which is the frame of the same number in a plan.
    pub frame: u16,
    /// Whether the claim writes.
    pub write: bool,
}
