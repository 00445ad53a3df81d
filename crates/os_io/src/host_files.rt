ghost use Rattle.std.specs.Prelude.{◌≡◌, ◌≤◌, length, Some, [], IfOk, OnOk, OnErr, MatchResult};
ghost use Rattle.std.specs.Io.KnownBytes.{ReadConsumes};
ghost use Rattle.os_io.specs.Counts.{HasRisen, raised};

use crate::errors::Failed;
use crate::files::Files;
use std::io::Read;
use std::marker::Model;
use std::{fs, rt};

/// The files of the host. As `Files` they tell no bytes.
#[derive(Drop)]
pub struct HostFiles<'r, R: rt::Files> {
    rt: &'r R,
    current: Option<R::File>,
    faults: u64,
    given: u64,
    opens: u64,
}

impl<'r, R: rt::Files> Model for HostFiles<'r, R> {
    ghost use Rattle.os_io.specs.HostStates.{HostFilesState, left_of};

    ghost Value = { HostFilesState };

    ghost view = { λ s. record {
      faults = s.faults;
      given = s.given;
      opens = s.opens;
      remaining = left_of R.File.remaining s.current;
    } };
}

impl<'r, R: rt::Files> HostFiles<'r, R> {
    /// The files of a host, none of them current. It takes no memory.
    pub fn new(rt: &'r R) -> HostFiles<'r, R>
        ensures { result ≡ record { faults = 0; given = 0; opens = 0; remaining = Some [] } }
    {
        HostFiles {
            rt,
            current: None,
            faults: 0,
            given: 0,
            opens: 0,
        }
    }
}

impl<'r, R: rt::Files> Files for HostFiles<'r, R> {
    ghost use Rattle.std.specs.Prelude.{None, true, refl};

    ghost faults = { λ s. s.faults };

    ghost given = { λ s. s.given };

    ghost holds = { λ _ _. None };

    ghost rest = { λ _. None };

    ghost opens = { λ s. s.opens };

    ghost may = { λ _ _ _. true };

    ghost may_at_last = { λ _ _ _ _. refl };

    /// Closes the current file, and makes one call of std, which makes an opening that was interrupted again. Where it fails, no file is current.
    fn open(&mut self, name: &str) -> Result<(), Failed>
        ensures failed { OnErr result (HasRisen self.old.faults self.new.faults) }
        ensures no_fault { OnOk result (self.new.faults ≡ self.old.faults) }
        ensures faults_kept { self.old.faults ≤ self.new.faults }
        ensures one_fault { OnErr result (self.new.faults ≡ raised self.old.faults 1) }
        ensures given { self.new.given ≡ 0 }
        ensures opens { self.new.opens ≡ raised self.old.opens 1 }
        ensures closed { OnErr result (self.new.remaining ≡ Some []) }
    {
        self.opens = self.opens.saturating_add(1);
        self.given = 0;
        self.current = None;
        match fs::open(self.rt, name) {
            Ok(file) => {
                self.current = Some(file);
                Ok(())
            }
            Err(_) => {
                self.faults = self.faults.saturating_add(1);
                Err(Failed)
            }
        }
    }

    /// Makes one call of the current file and hands on its answer. A folder can be opened, and
    /// fails here.
    fn read(&mut self, buf: &mut [u8]) -> Result<usize, Failed>
        ensures failed { OnErr result (HasRisen self.old.faults self.new.faults) }
        ensures no_fault { OnOk result (self.new.faults ≡ self.old.faults) }
        ensures faults_kept { self.old.faults ≤ self.new.faults }
        ensures within { IfOk result (λ n. n ≤ length buf.old) }
        ensures moved { ReadConsumes self.old.remaining self.new.remaining result buf.new }
        ensures one_fault { OnErr result (self.new.faults ≡ raised self.old.faults 1) }
        ensures given { MatchResult result
            (λ n. self.new.given ≡ raised self.old.given n)
            (λ _. self.new.given ≡ self.old.given) }
        ensures opens { self.new.opens ≡ self.old.opens }
    {
        let answer = match &mut self.current {
            None => Ok(0),
            Some(file) => file.read(buf),
        };
        match answer {
            Ok(count) => {
                self.given = self.given.saturating_add(count as u64);
                Ok(count)
            }
            Err(_) => {
                self.faults = self.faults.saturating_add(1);
                Err(Failed)
            }
        }
    }
}
