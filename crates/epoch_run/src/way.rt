/// How a run may go on from one epoch to the next.
#[derive(Clone, Copy, Debug, PartialEq, Eq)]
pub(crate) enum Way {
    /// In control order, where nobody waits and bodies are short, and else in epochs.
    InOrder,
    /// In epochs alone.
    InEpochs,
}
