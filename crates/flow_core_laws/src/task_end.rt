ghost use Rattle.std.specs.Prelude.{◌≡◌};
ghost use Rattle.flow_core_laws.specs.Outcome.{root_of};

/// How an activation ended.
#[derive(Clone, Copy, Debug, PartialEq, Eq)]
pub enum TaskEnd {
    /// It ended normally, and its outputs appear as values.
    Done,
    /// It hit a trap, a code from 1 to 8, on a line of the program; what it should have written is poison.
    Trapped { code: u8, line: u32 },
    /// It used up its turns; what it should have written is poison.
    OverBudget,
    /// An input was poison, so that its body never ran; what it should have written is poison. `root` is the
    /// number of the activation that trapped or used up its turns: the least, where inputs have several.
    Poisoned { root: u32 },
}

impl TaskEnd {
    /// The root by which this end of the activation of a number poisons what it should have written.
    pub fn root(self, number: u32) -> Option<u32>
        ensures { result ≡ root_of number self }
    {
        match self {
            TaskEnd::Done => None,
            TaskEnd::Trapped { .. } | TaskEnd::OverBudget => Some(number),
            TaskEnd::Poisoned { root } => Some(root),
        }
    }
}
