//! Lines that answer as they are told.

use steal_pool::{Line, Look};

/// What a line answers.
#[derive(Clone, Copy, Debug)]
pub(crate) enum Answer {
    /// Its number, and then that it is empty.
    Number,
    /// That it is empty, since it gave its number.
    Given,
    Empty,
    /// That a race was lost, and then that it is empty.
    Raced,
}

/// A line that answers as it is told.
#[derive(Clone, Copy, Drop)]
pub(crate) struct Told {
    pub(crate) answer: Answer,
    pub(crate) number: u32,
    pub(crate) finds: u64,
    pub(crate) races: u64,
}

impl Line for Told {
    ghost use Rattle.runtime_tests.specs.Told.{told_shows};
    ghost use Rattle.std.specs.Prelude.{⊤};

    ghost shows = { told_shows };

    ghost tells = { λ _ _ _. ⊤ };

    fn take(&mut self) -> Look {
        match self.answer {
            Answer::Number => {
                self.answer = Answer::Given;
                Look::Frame(self.number)
            }
            Answer::Given | Answer::Empty => {
                self.finds = self.finds.saturating_add(1);
                Look::Empty
            }
            Answer::Raced => {
                self.answer = Answer::Empty;
                self.races = self.races.saturating_add(1);
                Look::Raced
            }
        }
    }
}
