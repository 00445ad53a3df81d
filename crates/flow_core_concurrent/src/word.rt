use flow_core_laws::TaskEnd;

/// How far a frame is.
#[derive(Clone, Copy, Debug, PartialEq, Eq)]
pub enum Word {
    /// It misses this many elements, at least one.
    Wait(u32),
    /// It misses none, and nobody took it.
    Open,
    /// A seat runs it.
    Taken,
    /// It ended, with values or with poison.
    Ended(TaskEnd),
}
