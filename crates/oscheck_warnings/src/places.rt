use os_io::Memory;
use std::alloc::Global;
use std::collections::BTreeSet;

/// A set of places of names.
#[derive(Drop)]
pub struct Places {
    places: BTreeSet<u32>,
}

impl Places {
    ghost use Rattle.std.specs.Prelude.{◌≡◌, ◌||◌, ◌==◌, ◌&&◌, ℕ, false, OnOk};
    ghost use Rattle.oscheck_warnings.specs.Places.{has};

    /// An empty set.
    pub(crate) fn new(alloc: Global) -> Places
        ensures { (place : ℕ) → has result place ≡ false }
    {
        Places {
            places: BTreeSet::new(alloc),
        }
    }

    /// Adds a place to the set.
    fn add(&mut self, place: u32) -> Result<(), Memory>
        ensures { OnOk result ((other : ℕ) → has self.new other ≡ ((place == other) || has self.old other)) }
    {
        self.places.insert(place)?;
        Ok(())
    }

    /// Adds a place to the set where there is more, and else leaves it.
    pub(crate) fn add_if(&mut self, more: bool, place: u32) -> Result<(), Memory>
        ensures { OnOk result ((other : ℕ) → has self.new other ≡ ((more && (place == other)) || has self.old other)) }
    {
        if more { self.add(place) } else { Ok(()) }
    }

    /// Whether a place is one of them.
    pub fn has(&self, place: u32) -> bool
        ensures { result ≡ has self.now place }
    {
        self.places.contains(&place)
    }
}
