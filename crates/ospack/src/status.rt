/// How a call of the program ended. The numbers are those of `osrun`.
#[derive(Clone, Copy, Debug, PartialEq, Eq)]
pub(crate) enum Status {
    /// All was packed or unpacked.
    AllDone = 0,
    /// The words ask for nothing.
    BadWords = 2,
    /// A slot is refused.
    Refused = 3,
    /// Standard input could not be read.
    ReadFault = 5,
    /// Standard output did not take all.
    WriteFault = 6,
    /// Memory could not be had.
    NoMemory = 7,
}

impl Status {
    /// The status of the process.
    pub(crate) fn code(self) -> u8 {
        self as u8
    }
}
