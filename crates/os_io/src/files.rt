ghost use Rattle.std.specs.Prelude.{◌≡◌, ◌<◌, ◌≤◌, ℕ, List, Option, Bool, true, length, take, IsTrue, IfOk, OnOk, OnErr, MatchResult};
ghost use Rattle.std.specs.Io.KnownBytes.{prepend_known, IsAtEnd};
ghost use Rattle.os_io.specs.Counts.{HasRisen, last_count, raised};

use crate::errors::Failed;

/// Named files, of which one at a time is current and is read from front to back.
/// A name is the bytes of its text.
pub trait Files {
    // How many calls have failed so far. It never falls.
    ghost faults: { Self → ℕ };

    // How many bytes were given since the last call of `open`.
    ghost given: { Self → ℕ };

    // What a name holds, where that is told.
    ghost holds: { Self → List ℕ → Option (List ℕ) };

    // What is left to read of the current file, where that is told.
    ghost rest: { Self → Option (List ℕ) };

    // How many calls of `open` there were so far.
    ghost opens: { Self → ℕ };

    // Whether the call of `open` with this number and this name is allowed.
    ghost may: { Self → ℕ → List ℕ → Bool };

    /// Makes the named file current, with nothing read. A missing file is a failure.
    fn open(&mut self, name: &str) -> Result<(), Failed>
        requires { IsTrue (may self.old (opens self.old) name.now) }
        ensures failed { OnErr result (HasRisen (faults self.old) (faults self.new)) }
        ensures no_fault { OnOk result (faults self.new ≡ faults self.old) }
        ensures faults_kept { faults self.old ≤ faults self.new }
        ensures rest { MatchResult result
            (λ _. rest self.new ≡ holds self.old name.now)
            (λ _. rest self.new ≡ rest self.old) }
        ensures given { given self.new ≡ 0 }
        ensures opens { opens self.new ≡ raised (opens self.old) 1 }
        ensures holds { holds self.new ≡ holds self.old }
        ensures may { may self.new ≡ may self.old };

    /// Takes bytes off the rest of the current file and says how many.
    /// 0 for a buffer that isn't empty is the end of the file.
    fn read(&mut self, buf: &mut [u8]) -> Result<usize, Failed>
        ensures failed { OnErr result (HasRisen (faults self.old) (faults self.new)) }
        ensures no_fault { OnOk result (faults self.new ≡ faults self.old) }
        ensures faults_kept { faults self.old ≤ faults self.new }
        ensures within { IfOk result (λ n. n ≤ length buf.old) }
        ensures bytes { MatchResult result
            (λ n. rest self.old ≡ prepend_known (take n buf.new) (rest self.new))
            (λ _. rest self.new ≡ rest self.old) }
        ensures end { IfOk result (λ n. n ≡ 0 → 0 < length buf.old → IsAtEnd (rest self.new)) }
        ensures given { MatchResult result
            (λ n. given self.new ≡ raised (given self.old) n)
            (λ _. given self.new ≡ given self.old) }
        ensures opens { opens self.new ≡ opens self.old }
        ensures holds { holds self.new ≡ holds self.old }
        ensures may { may self.new ≡ may self.old };

    // From the last value of the count of openings on every name is allowed.
    ghost may_at_last: { (files : Self) (number : ℕ) (name : List ℕ) → last_count ≤ number → may files number name ≡ true };
}
