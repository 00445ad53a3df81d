use os_ast::{Resolved, What};
use os_io::Memory;
use std::alloc::Global;
use std::collections::BTreeMap;

/// What the names of a program mean, by their places among the tokens.
#[derive(Drop)]
pub(crate) struct Meanings {
    by_place: BTreeMap<u32, What>,
}

impl Meanings {
    ghost use Rattle.std.specs.Prelude.{◌≡◌, ◌==◌, ℕ, if◌then◌else◌, Some, IfOk, OnOk};
    ghost use Rattle.oscheck_warnings.specs.Meanings.{what_at, AreMeanings};

    /// The meanings of some names, where no other name stands at the place of one.
    pub(crate) fn of(alloc: Global, names: &[Resolved]) -> Result<Meanings, Memory>
        ensures { IfOk result (AreMeanings names.now) }
    {
        let mut meanings = Meanings {
            by_place: BTreeMap::new(alloc),
        };
        for name in names {
            meanings.add(*name)?;
        }
        Ok(meanings)
    }

    /// Adds what one more name means.
    fn add(&mut self, name: Resolved) -> Result<(), Memory>
        ensures { OnOk result ((place : ℕ) → what_at self.new place ≡ (if name.place == place then Some name.what else what_at self.old place)) }
    {
        self.by_place.insert(name.place, name.what)?;
        Ok(())
    }

    /// What the name at a place means.
    pub(crate) fn at(&self, place: u32) -> Option<What>
        ensures { result ≡ what_at self.now place }
    {
        self.by_place.get(&place).copied()
    }
}
