use flow_core_laws::{ControlEnd, Ends};
use stream_match::Layout;

/// How many turns activations and `main` may take: one for each turn of a loop, each call and each
/// tick. Each is 0 to 1,000,000,000.
#[derive(Clone, Copy, Debug, PartialEq, Eq)]
pub struct Budgets {
    /// The budget of each activation.
    pub task: u64,
    /// The budget of `main`.
    pub control: u64,
}

/// What a run comes to.
#[derive(Debug, Drop)]
pub struct RunResult {
    /// The positions of the activations that `main` created.
    pub layout: Layout,
    /// How each of them ended, and the elements of the output.
    pub ends: Ends,
    /// How `main` ended.
    pub control: ControlEnd,
}
