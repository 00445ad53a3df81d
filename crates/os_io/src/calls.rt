ghost use Rattle.std.specs.Prelude.{◌≡◌, [], ◌∷◌, ◌++◌, is_err, if◌then◌else◌, OnOk, OnErr};
ghost use Rattle.os_io.specs.Calls.{is_named};
ghost use Rattle.os_io.specs.Counts.{raised};

use crate::errors::{Failed, Memory};
use std::alloc::Global;

/// The calls made on a fake, with the numbers of those that are to fail, counted from 0.
#[derive(Debug, Drop)]
pub(crate) struct Calls {
    pub(crate) failing: Vec<u64>,
    pub(crate) made: u64,
    pub(crate) faults: u64,
}

impl Calls {
    pub(crate) fn new(alloc: Global) -> Calls
        ensures failing { result.failing.items ≡ [] }
        ensures made { result.made ≡ 0 }
        ensures faults { result.faults ≡ 0 }
    {
        Calls {
            failing: Vec::new(alloc),
            made: 0,
            faults: 0,
        }
    }

    /// Names the call that is to fail.
    pub(crate) fn fail_at(&mut self, call: u64) -> Result<(), Memory>
        ensures ok { OnOk result (self.new.failing.items ≡ self.old.failing.items ++ call ∷ []) }
        ensures err { OnErr result (self.new.failing.items ≡ self.old.failing.items) }
        ensures made { self.new.made ≡ self.old.made }
        ensures faults { self.new.faults ≡ self.old.faults }
    {
        self.failing.push(call)?;
        Ok(())
    }

    /// Counts a call, which fails if it was named.
    pub(crate) fn count(&mut self) -> Result<(), Failed>
        ensures fails { is_err result ≡ is_named self.old.failing.items self.old.made }
        ensures failing { self.new.failing ≡ self.old.failing }
        ensures made { self.new.made ≡ raised self.old.made 1 }
        ensures faults { self.new.faults
            ≡ (if is_err result then raised self.old.faults 1 else self.old.faults) }
    {
        let is_named = self.failing.contains(&self.made);
        self.made = self.made.saturating_add(1);
        if is_named {
            return Err(self.fault());
        }
        Ok(())
    }

    /// Counts a fault.
    pub(crate) fn fault(&mut self) -> Failed
        ensures failing { self.new.failing ≡ self.old.failing }
        ensures made { self.new.made ≡ self.old.made }
        ensures faults { self.new.faults ≡ raised self.old.faults 1 }
    {
        self.faults = self.faults.saturating_add(1);
        Failed
    }
}
