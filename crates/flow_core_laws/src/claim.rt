/// A claim of an activation on a stream: a window that it reads or writes.
///
/// A read claim sees `horizon` positions from the read cursor on and moves the cursor by `burst`. A
/// write claim writes `horizon` positions, and its `burst` is its horizon.
#[derive(Clone, Copy, Debug, PartialEq, Eq)]
pub struct Claim {
    /// The stream's number: 0 is the input, 1 the output, the declared ones follow.
    pub stream: u32,
    /// Whether the claim writes.
    pub write: bool,
    /// How many positions the window covers.
    pub horizon: u32,
    /// By how many positions the stream's cursor moves.
    pub burst: u32,
    /// What ticks took from the stream's read cursor since its last read claim; 0 in a write claim.
    pub skip: u64,
}
