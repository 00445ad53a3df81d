//! The tasks of the control program, as their pragmas find them.

ghost use Rattle.std.specs.Prelude.{◌≡◌, ◌++◌, ◌==◌, [], ◌∷◌, IfOk, OnErr, OnOk, get_or, map, position};
ghost use Rattle.cddf_meaning.specs.Tasks.{ids, sites_of};
ghost use Rattle.cddf_meaning_plain_tasks.specs.Sought.{task_of};

use crate::found_task::FoundTask;
use cddf_meaning::{Site, TypedName};
use os_io::{List, Memory};
use std::alloc::Global;
use std::collections::BTreeMap;
use std::marker::Model;

/// The tasks, with their numbers by the places of their pragmas.
#[derive(Drop)]
pub struct Sites {
    sites: Vec<Site>,
    numbers: BTreeMap<u32, usize>,
}

impl Model for Sites {
    ghost use Rattle.std.specs.Prelude.{◌≡◌, ◌==◌, ℕ, List, position};
    ghost use Rattle.std.specs.BTreeMap.{get};
    ghost use Rattle.std.specs.Ordering.{nat_cmp};
    ghost use Rattle.cddf_meaning.specs.declared.site.Site.{Site};

    ghost Value = { List Site };

    ghost view = { λ s. s.sites.items };

    ghost invariant = { λ s. (place : ℕ) → get nat_cmp s.numbers place ≡ position (λ (t : Site). t.place == place) s.sites.items };
}

impl Sites {
    /// A list without tasks.
    fn new(alloc: Global) -> Sites
        ensures { result ≡ [] }
    {
        Sites {
            sites: Vec::new(alloc),
            numbers: BTreeMap::new(alloc),
        }
    }

    /// Adds a task. After `Memory` the list is what it was.
    fn push(&mut self, site: Site) -> Result<(), Memory>
        ensures ok { OnOk result (self.new ≡ self.old ++ site ∷ []) }
        ensures err { OnErr result (self.new ≡ self.old) }
    {
        self.sites.reserve(1)?;
        let number = self.number(site.place).unwrap_or(self.sites.len());
        self.numbers.insert(site.place, number)?;
        self.sites.push_reserved(site);
        Ok(())
    }

    /// The number of the task with its PragmaStart at this place.
    pub fn number(&self, place: u32) -> Option<usize>
        ensures { result ≡ position (λ t. t.place == place) self.now }
    {
        self.numbers.get(&place).copied()
    }

    /// The names of the scalars that a task captures.
    pub fn captured(&self, number: usize) -> &[u32]
        ensures { result.now ≡ get_or (map (λ t. t.captured) self.now) number [] }
    {
        match self.sites.get(number) {
            Some(site) => site.captured.as_slice(),
            None => &[],
        }
    }
}

/// Names without their types.
fn ids(alloc: Global, names: &[TypedName]) -> Result<List<u32>, Memory>
    ensures { IfOk result (λ list. list ≡ ids names.now) }
{
    let mut list = List::new(alloc);
    for name in names {
        list.push(name.id)?;
    }
    Ok(list)
}

/// The tasks of a program as their pragmas find them.
pub fn sites_of(alloc: Global, tasks: &[FoundTask<'_>]) -> Result<Sites, Memory>
    ensures { IfOk result (λ sites. sites ≡ sites_of (map task_of tasks.now)) }
{
    let mut sites = Sites::new(alloc);
    for task in tasks {
        sites.push(Site {
            place: task.site.mark.place,
            captured: ids(alloc, task.captured.as_slice())?,
        })?;
    }
    Ok(sites)
}
