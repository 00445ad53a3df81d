/// Positions of a stream that go into the cells of a frame: what a span reads, or what leaves, which
/// goes to the sink.
#[derive(Clone, Copy)]
pub struct Stretch {
    /// The number of the frame; the sink has the number behind the last one.
    pub to: u32,
    pub stream: u32,
    /// The first position.
    pub first: u64,
    /// How many positions there are; there are as many cells.
    pub count: u32,
    /// The first of the cells.
    pub at: u32,
}
