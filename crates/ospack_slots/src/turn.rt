/// What came of a turn: each reads one slot or piece of the file, and writes what is made of it.
#[derive(Clone, Copy, Debug)]
pub(crate) enum Turn {
    /// The slot or piece was read, and all that is made of it was written.
    Done,
    /// The file has ended: nothing was left to read.
    End,
}
