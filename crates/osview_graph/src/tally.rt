ghost use Rattle.std.specs.Prelude.{◌≡◌, if◌then◌else◌, IfOk, None, OnOk, Some, filter};
ghost use Rattle.osview_graph.specs.Arrows.{is_alike};
ghost use Rattle.osview_graph.specs.Tally.{item_of, left, sizes_of, with_use};
ghost use Rattle.osview_graph.specs.declared.uses.Use.{Use};

use crate::uses::Use;
use os_io::Memory;
use std::alloc::Global;
use std::collections::BTreeMap;

/// What uses have in common that are alike: an item of a task, and a stream.
#[derive(Clone, Copy, PartialEq, Eq, PartialOrd, Ord)]
pub(crate) struct Item {
    task: u32,
    item: u64,
    stream: u32,
}

/// The least and the greatest sizes of some uses.
#[derive(Clone, Copy, Debug)]
pub(crate) struct Sizes {
    pub(crate) least_horizon: u32,
    pub(crate) greatest_horizon: u32,
    pub(crate) least_burst: u32,
    pub(crate) greatest_burst: u32,
}

/// The sizes of items that are left to be drawn.
#[derive(Drop)]
pub(crate) struct Tally {
    sizes: BTreeMap<Item, Sizes>,
}

impl Use {
    /// What the use has in common with those that are like it.
    fn item(self) -> Item
        ensures { result ≡ item_of self }
    {
        Item {
            task: self.task,
            item: self.item,
            stream: self.stream,
        }
    }
}

/// The sizes of some uses and of one more.
fn with_use(sizes: Option<Sizes>, one: Use) -> Sizes
    ensures { result ≡ with_use sizes one }
{
    match sizes {
        None => Sizes {
            least_horizon: one.horizon,
            greatest_horizon: one.horizon,
            least_burst: one.burst,
            greatest_burst: one.burst,
        },
        Some(sizes) => Sizes {
            least_horizon: sizes.least_horizon.min(one.horizon),
            greatest_horizon: sizes.greatest_horizon.max(one.horizon),
            least_burst: sizes.least_burst.min(one.burst),
            greatest_burst: sizes.greatest_burst.max(one.burst),
        },
    }
}

impl Tally {
    /// A tally in which no use is counted yet.
    fn new(alloc: Global) -> Tally
        ensures { (u : Use) → left result u ≡ None }
    {
        Tally {
            sizes: BTreeMap::new(alloc),
        }
    }

    /// The sizes that are still to be drawn of the uses that are like this one.
    fn left(&self, one: Use) -> Option<Sizes>
        ensures { result ≡ left self.now one }
    {
        self.sizes.get(&one.item()).copied()
    }

    /// Counts a use.
    fn add(&mut self, one: Use) -> Result<(), Memory>
        ensures { OnOk result ((u : Use) → left self.new u
            ≡ (if is_alike u one then Some (with_use (left self.old u) one) else left self.old u)) }
    {
        let more = with_use(self.left(one), one);
        self.sizes.insert(one.item(), more)?;
        Ok(())
    }

    /// The tally of a list of uses.
    pub(crate) fn of(alloc: Global, all: &[Use]) -> Result<Tally, Memory>
        ensures { IfOk result (λ tally. (u : Use) → left tally u ≡ sizes_of (filter (is_alike u) all.now)) }
    {
        let mut tally = Tally::new(alloc);
        for one in all {
            tally.add(*one)?;
        }
        Ok(tally)
    }

    /// Takes all those away that are like one, and gives their sizes.
    pub(crate) fn take(&mut self, one: Use) -> Option<Sizes>
        ensures taken { result ≡ left self.old one }
        ensures others { (u : Use) → left self.new u ≡ (if is_alike u one then None else left self.old u) }
    {
        self.sizes.remove(&one.item())
    }
}
