/// A function, a task's body or `main`. It stands from `start` to the next unit's start, or to the code's end.
#[derive(Clone, Copy, Debug, PartialEq, Eq)]
pub struct CodeUnit {
    /// The place of its first instruction.
    pub start: u32,
    /// How many arguments it takes; they are its slots 0 and following.
    pub args: u32,
    /// How many slots it has.
    pub slots: u32,
    /// How high its operand stack may grow.
    pub stack: u32,
}
