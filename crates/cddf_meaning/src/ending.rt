use c_int::{ControlLimit, Trap};

/// How a body ends before its last statement.
#[derive(Clone, Copy, Debug, PartialEq, Eq)]
pub enum Ending {
    /// A trap, on a line of the program.
    Trapped { trap: Trap, line: u32 },
    /// A turn was needed, and none was left.
    OverBudget,
    /// A limit of the control program.
    Limited(ControlLimit),
}
