/// Who should give an element that isn't there.
#[derive(Clone, Copy, Debug, PartialEq, Eq)]
pub enum Supply {
    /// The input, which has ended before it.
    Ended,
    /// No activation: none claims the position for writing.
    Nobody,
    /// The activation that waits for it.
    Itself,
    /// Another activation, which waits too.
    Waiting { giver: u32 },
}

/// What became of an activation that isn't done.
#[derive(Clone, Copy, Debug, PartialEq, Eq)]
pub enum Fact {
    /// It hit a trap, a code from 1 to 8, on a line of the program.
    Trapped {
        code: u8,
        line: u32,
    },
    /// It used up its turns.
    OverBudget,
    /// It never ran: what it reads should have come, if only through others, from an activation that trapped or used up
    /// its turns, and that has this number.
    Poisoned {
        root: u32,
    },
    /// It waits for the element at a position of a stream.
    Waits {
        stream: u32,
        position: u64,
        supply: Supply,
    },
}

/// What became of one activation.
#[derive(Clone, Copy, Debug, PartialEq, Eq)]
pub struct Sentence {
    /// The number of the activation.
    pub activation: u32,
    /// The line of its task's pragma.
    pub task_line: u32,
    /// What became of it.
    pub fact: Fact,
}
