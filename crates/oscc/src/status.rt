/// How a call of the program ended. The numbers are those of `osrun` but for a text that is refused, which has that of `oscheck`.
#[derive(Clone, Copy, Debug, PartialEq, Eq)]
pub(crate) enum Status {
    /// All was written.
    Done = 0,
    /// The text is no program.
    Refused = 1,
    /// The words ask for nothing.
    BadWords = 2,
    /// The file can't be read.
    ReadFault = 5,
    /// Standard output did not take all.
    WriteFault = 6,
    /// Memory could not be had.
    NoMemory = 7,
}

impl Status {
    /// The status of the process.
    pub(crate) fn code(self) -> u8 {
        self as u8
    }
}
