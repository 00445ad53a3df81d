/// Whether more of a file may come.
#[derive(Clone, Copy, Debug, PartialEq, Eq)]
pub enum InputState {
    /// More may come.
    Open,
    /// The file was read to its end.
    AtEnd,
    /// More bytes than the limit were given, so no more are asked for.
    TooLong,
    /// The file could not be opened, or a read failed.
    Failed,
}
