/// How a call of the program ended. The numbers are those of `osrun`.
#[derive(Clone, Copy, Debug, PartialEq, Eq)]
pub(crate) enum Status {
    /// All cases passed.
    AllPassed = 0,
    /// A case failed.
    Failed = 1,
    /// The words ask for nothing, or a line is no case. Nothing was run.
    BadWords = 2,
    /// A file can't be read.
    ReadFault = 5,
    /// Standard output or the report did not take all.
    WriteFault = 6,
    /// Memory could not be had.
    NoMemory = 7,
}

impl Status {
    /// The status of the process.
    pub(crate) fn code(self) -> u8 {
        self as u8
    }

    /// The status of two things that were done: that with the greater number.
    pub(crate) fn and(self, other: Status) -> Status {
        if self.code() < other.code() {
            other
        } else {
            self
        }
    }
}
