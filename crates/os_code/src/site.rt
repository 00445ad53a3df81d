use os_io::List;

/// A place of `main` that creates activations: a task's pragma.
#[derive(Debug, Drop)]
pub struct Site {
    /// The number of the task's unit.
    pub unit: u32,
    /// The line of the pragma.
    pub line: u32,
    /// The slots of `main` that are captured, in the order of the task's own slots.
    pub captured: List<u32>,
    /// The clause items, in order.
    pub items: List<SiteItem>,
}

/// A clause item of a task: a window on a stream, or on one of an array of streams.
#[derive(Clone, Copy, Debug, PartialEq, Eq)]
pub struct SiteItem {
    /// Whether it is an output item.
    pub write: bool,
    /// The number of its stream, or of the first stream of its array.
    pub stream: u32,
    /// The slot of `main` that keeps its horizon, or none for horizon 1.
    pub window: Option<u32>,
}
