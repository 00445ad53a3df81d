use crate::running::CountedEnd;

/// How far a run of `main` by stretches has come.
#[derive(Clone, Copy, Debug)]
pub(crate) enum Stage {
    /// The run stands behind the stretches so far, and more activations may come.
    Standing,
    /// `main` has ended, and all activations were given.
    Ended(CountedEnd),
    /// Memory ran out in a stretch: the run gives nothing more.
    GivenUp,
}
