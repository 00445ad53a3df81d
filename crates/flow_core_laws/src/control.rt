use crate::activation::Activation;
use os_io::List;

/// How the control program ended.
#[derive(Clone, Copy, Debug, PartialEq, Eq)]
pub enum ControlEnd {
    /// It ran to its end.
    Done,
    /// It hit a trap, a code from 1 to 8, on a line of the program.
    Trapped { code: u8, line: u32 },
    /// It used up its turns.
    OverBudget,
    /// It met a limit: 1 on the number of activations, 2 on the sum of their horizons.
    Limit(u8),
}

/// What the control program did: the activations in the order of their creation, and its end.
#[derive(Debug, Drop)]
pub struct Control {
    pub activations: List<Activation>,
    pub end: ControlEnd,
}
