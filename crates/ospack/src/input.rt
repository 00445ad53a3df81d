//! Standard input as files see it.

ghost use Rattle.std.specs.Prelude.{◌≡◌, ◌≤◌, length, IfOk, OnOk, OnErr, MatchResult};
ghost use Rattle.std.specs.Io.KnownBytes.{ReadConsumes};
ghost use Rattle.os_io.specs.Counts.{HasRisen, raised};

use os_io::{Failed, Files};
use std::io::Read;
use std::marker::Model;

/// A reader, as standard input, that is the one file there is, whatever it is called. It is read where it stands and not opened by a
/// name, so that it may be a pipe that belongs to somebody else. As `Files` it tells no bytes.
#[derive(Drop)]
pub(crate) struct Input<R: Read> {
    reader: R,
    faults: u64,
    given: u64,
    opens: u64,
}

impl<R: Read> Model for Input<R> {
    ghost use Rattle.os_io.specs.HostStates.{HostFilesState};

    ghost Value = { HostFilesState };

    ghost view = { λ s. record {
      faults = s.faults;
      given = s.given;
      opens = s.opens;
      remaining = R.remaining s.reader;
    } };
}

impl<R: Read> Input<R> {
    /// What a reader has left to give. It takes no memory.
    pub(crate) fn new(reader: R) -> Input<R>
        ensures { result ≡ record { faults = 0; given = 0; opens = 0; remaining = R.remaining reader } }
    {
        Input {
            reader,
            faults: 0,
            given: 0,
            opens: 0,
        }
    }
}

impl<R: Read> Files for Input<R> {
    ghost use Rattle.std.specs.Prelude.{None, true, refl};

    ghost faults = { λ s. s.faults };

    ghost given = { λ s. s.given };

    ghost holds = { λ _ _. None };

    ghost rest = { λ _. None };

    ghost opens = { λ s. s.opens };

    ghost may = { λ _ _ _. true };

    ghost may_at_last = { λ _ _ _ _. refl };

    /// Goes on where the reader stands. It doesn't fail.
    fn open(&mut self, _name: &str) -> Result<(), Failed>
        ensures failed { OnErr result (HasRisen self.old.faults self.new.faults) }
        ensures no_fault { OnOk result (self.new.faults ≡ self.old.faults) }
        ensures faults_kept { self.old.faults ≤ self.new.faults }
        ensures given { self.new.given ≡ 0 }
        ensures opens { self.new.opens ≡ raised self.old.opens 1 }
        ensures remaining { self.new.remaining ≡ self.old.remaining }
    {
        self.opens = self.opens.saturating_add(1);
        self.given = 0;
        Ok(())
    }

    /// Makes one call of the reader and hands on its answer.
    fn read(&mut self, buf: &mut [u8]) -> Result<usize, Failed>
        ensures failed { OnErr result (HasRisen self.old.faults self.new.faults) }
        ensures no_fault { OnOk result (self.new.faults ≡ self.old.faults) }
        ensures faults_kept { self.old.faults ≤ self.new.faults }
        ensures within { IfOk result (λ n. n ≤ length buf.old) }
        ensures moved { ReadConsumes self.old.remaining self.new.remaining result buf.new }
        ensures one_fault { OnErr result (self.new.faults ≡ raised self.old.faults 1) }
        ensures given { MatchResult result
            (λ n. self.new.given ≡ raised self.old.given n)
            (λ _. self.new.given ≡ self.old.given) }
        ensures opens { self.new.opens ≡ self.old.opens }
    {
        match self.reader.read(buf) {
            Ok(count) => {
                self.given = self.given.saturating_add(count as u64);
                Ok(count)
            }
            Err(_) => {
                self.faults = self.faults.saturating_add(1);
                Err(Failed)
            }
        }
    }
}
