use crate::known::Known;
use os_io::List;

/// A frame that a seat runs, and how many of its output elements are stored: all those of its pieces
/// before `piece`, and the first `stored` of that piece.
#[derive(Clone, Copy, Debug, PartialEq, Eq)]
pub struct FrameRun {
    pub frame: u32,
    pub piece: u32,
    pub stored: u32,
}

/// What one seat did and knows. Contracts alone see it: no value of it is made.
#[derive(Debug, Drop)]
pub struct View {
    pub about: Known,
    /// What it runs at this moment, if it runs something.
    pub run: Option<FrameRun>,
    /// The frames that it opened by a SUB.
    pub made: List<u32>,
    /// The frames that it claimed.
    pub ran: List<u32>,
    /// The frames that a CLAIM of it found not Open.
    pub missed: List<u32>,
    /// The frames that a LOOK of it found Open.
    pub found: List<u32>,
    /// The frames that it knew when a CLAIM or a LOOK of it found them not Open.
    pub lost: List<u32>,
    /// How many looks in a row counted. A LOOK looks at the frame of this number, round and round.
    pub looks: u64,
    /// For how many of the seats that were opened it stands. A seat that was joined has none: it is
    /// spent.
    pub shares: u32,
}
