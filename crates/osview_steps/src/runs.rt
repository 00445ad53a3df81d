/// What a run took: how many steps of the machine, and how many turns of its budget.
#[derive(Clone, Copy, Debug, PartialEq, Eq)]
pub struct Taken {
    pub steps: u64,
    pub turns: u64,
}

/// An activation, by the number of its task, with what it took if it ran.
#[derive(Clone, Copy, Debug, PartialEq, Eq)]
pub struct TaskRun {
    pub task: u32,
    pub took: Option<Taken>,
}
