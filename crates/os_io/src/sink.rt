ghost use Rattle.std.specs.Prelude.{◌≡◌, ◌<◌, ◌≤◌, ℕ, List, Option, length, take, IfOk, OnOk, OnErr, MatchResult};
ghost use Rattle.std.specs.Io.KnownBytes.{append_known};
ghost use Rattle.os_io.specs.Counts.{HasRisen};

use crate::errors::Failed;

/// Takes bytes, some at a time.
pub trait Sink {
    // How many calls have failed so far. It never falls.
    ghost faults: { Self → ℕ };

    // How many calls took nothing of a piece that wasn't empty. It never falls.
    ghost empty_takes: { Self → ℕ };

    // The bytes taken so far, where that is told.
    ghost taken: { Self → Option (List ℕ) };

    /// Takes a front of `piece` and says how long it is. A call that fails takes nothing.
    fn write(&mut self, piece: &[u8]) -> Result<usize, Failed>
        ensures failed { OnErr result (HasRisen (faults self.old) (faults self.new)) }
        ensures no_fault { OnOk result (faults self.new ≡ faults self.old) }
        ensures faults_kept { faults self.old ≤ faults self.new }
        ensures within { IfOk result (λ n. n ≤ length piece.now) }
        ensures taken { MatchResult result
            (λ n. taken self.new ≡ append_known (taken self.old) (take n piece.now))
            (λ _. taken self.new ≡ taken self.old) }
        ensures empty_take_counted { IfOk result (λ n. n ≡ 0 → 0 < length piece.now →
            HasRisen (empty_takes self.old) (empty_takes self.new)) }
        ensures nothing_else_counted { MatchResult result
            (λ n. (n ≡ 0 → length piece.now ≡ 0) → empty_takes self.new ≡ empty_takes self.old)
            (λ _. empty_takes self.new ≡ empty_takes self.old) }
        ensures empty_takes_kept { empty_takes self.old ≤ empty_takes self.new };
}
