ghost use Rattle.std.specs.Prelude.{◌≡◌};
ghost use Rattle.flow_core_laws.specs.Plans.{frame_at, number_at};

use crate::elem::Elem;
use os_io::List;

/// An activation in a plan. Its cells are `cell` to `cell + inputs - 1`, one for each element of its
/// input windows, in clause order and then by position.
#[derive(Clone, Copy, Debug, PartialEq, Eq)]
pub struct FramePlan {
    /// The first of its cells.
    pub cell: u32,
    /// How many cells it has.
    pub inputs: u32,
    /// How many elements it writes.
    pub outputs: u32,
    /// How many of its cells hold nothing at opening.
    pub wait: u32,
    /// The first of the pieces that carry its output elements.
    pub piece: u32,
    /// How many such pieces there are; they stand together.
    pub pieces: u32,
}

/// The output elements `first` to `first + count - 1` of frame `from` go into the cells from `at` on
/// of frame `to`.
#[derive(Clone, Copy, Debug, PartialEq, Eq)]
pub struct Piece {
    pub from: u32,
    pub to: u32,
    pub first: u32,
    /// How many elements the piece has, at least 1.
    pub count: u32,
    /// The number of the first cell that it fills.
    pub at: u32,
}

/// Activations with their positions worked out.
///
/// With N activations the frames are 0 to N - 1. Frame N is the sink: nobody runs it, and its cells
/// are the elements that leave the run.
#[derive(Debug, Drop)]
pub struct Plan {
    pub frames: List<FramePlan>,
    pub sink: FramePlan,
    pub pieces: List<Piece>,
    /// The element that each cell has at opening, a value or poison, or none.
    pub filled: List<Option<Elem>>,
    /// The number of each frame's activation, ascending. Poison names its root by this number.
    pub numbers: List<u32>,
}

impl Plan {
    /// The frame of a number, and the sink for every number from N on.
    pub fn frame(&self, number: u32) -> FramePlan
        ensures { result ≡ frame_at self.now number }
    {
        match self.frames.as_slice().get(number as usize) {
            Some(frame) => *frame,
            None => self.sink,
        }
    }
    /// The number of a frame's activation; a frame for which the plan has none counts by its own.
    pub fn number(&self, frame: u32) -> u32
        ensures { result ≡ number_at self.now frame }
    {
        match self.numbers.as_slice().get(frame as usize) {
            Some(number) => *number,
            None => frame,
        }
    }
}
