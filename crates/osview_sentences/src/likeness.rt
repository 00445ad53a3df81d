ghost use Rattle.std.specs.Prelude.{◌≡◌};
ghost use Rattle.osview_sentences.specs.Tally.{likeness, way_of, what_of};

use crate::fact::{Fact, Sentence, Supply};

/// How an element is to be given, but for who gives it.
#[derive(Clone, Copy, PartialEq, Eq, PartialOrd, Ord)]
pub(crate) enum Way {
    Ended,
    Nobody,
    Itself,
    Waiting,
}

/// What became of an activation, but for positions and for who gives an element.
#[derive(Clone, Copy, PartialEq, Eq, PartialOrd, Ord)]
pub(crate) enum What {
    Trapped { code: u8, line: u32 },
    OverBudget,
    Poisoned { root: u32 },
    Waits { stream: u32, way: Way },
}

/// What sentences have in common exactly where they are alike.
#[derive(Clone, Copy, PartialEq, Eq, PartialOrd, Ord)]
pub(crate) struct Likeness {
    task_line: u32,
    what: What,
}

impl Supply {
    /// How the element is to be given.
    fn way(self) -> Way
        ensures { result ≡ way_of self }
    {
        match self {
            Supply::Ended => Way::Ended,
            Supply::Nobody => Way::Nobody,
            Supply::Itself => Way::Itself,
            Supply::Waiting { .. } => Way::Waiting,
        }
    }
}

impl Fact {
    /// What became of the activation.
    fn what(self) -> What
        ensures { result ≡ what_of self }
    {
        match self {
            Fact::Trapped { code, line } => What::Trapped { code, line },
            Fact::OverBudget => What::OverBudget,
            Fact::Poisoned { root } => What::Poisoned { root },
            Fact::Waits { stream, supply, .. } => What::Waits {
                stream,
                way: supply.way(),
            },
        }
    }
}

impl Sentence {
    /// What the sentence has in common with those that are like it.
    pub(crate) fn likeness(self) -> Likeness
        ensures { result ≡ likeness self }
    {
        Likeness {
            task_line: self.task_line,
            what: self.fact.what(),
        }
    }
}
