//! Where tasks read their scalars last.

ghost use Rattle.std.specs.Prelude.{◌≡◌, length, IfOk};
ghost use Rattle.oscheck_warnings.specs.LastReads.{cell_of, read_by, changed_by, AreLastReads};
ghost use Rattle.oscheck_warnings.specs.Meanings.{what_at};

use crate::access::{Access, Effect};
use crate::meanings::Meanings;
use os_ast::What;
use os_io::Memory;
use std::alloc::Global;
use std::collections::BTreeMap;

/// A scalar of a task, by the place of the task's pragma and the scalar's slot.
#[derive(Clone, Copy, PartialEq, Eq, PartialOrd, Ord)]
pub(crate) struct Cell {
    task: u32,
    slot: u32,
}

/// The index of the last access, in the order of the accesses, that reads a scalar.
#[derive(Drop)]
pub(crate) struct LastReads {
    last: BTreeMap<Cell, usize>,
}

impl Cell {
    ghost use Rattle.std.specs.Prelude.{◌≡◌, ltb};

    /// Whether the scalar is one of a task at all.
    pub(crate) fn is_in_task(self) -> bool
        ensures { result ≡ ltb 0 self.task }
    {
        self.task > 0
    }
}

impl LastReads {
    ghost use Rattle.std.specs.Prelude.{◌≡◌, ℕ, if◌then◌else◌, Some, None, OnOk};
    ghost use Rattle.oscheck_warnings.specs.LastReads.{last_read, is_cell};

    /// The last reads before any access.
    fn new(alloc: Global) -> LastReads
        ensures { (task slot : ℕ) → last_read result task slot ≡ None }
    {
        LastReads {
            last: BTreeMap::new(alloc),
        }
    }

    /// Notes that the access with this index, the last one so far, reads a scalar.
    fn add(&mut self, cell: Cell, index: usize) -> Result<(), Memory>
        ensures { OnOk result ((task slot : ℕ) → last_read self.new task slot
            ≡ (if is_cell (Some cell) task slot then Some index else last_read self.old task slot)) }
    {
        self.last.insert(cell, index)?;
        Ok(())
    }

    /// Does what `add` does where the access reads a scalar, and nothing where it reads none.
    fn add_if(&mut self, cell: Option<Cell>, index: usize) -> Result<(), Memory>
        ensures { OnOk result ((task slot : ℕ) → last_read self.new task slot
            ≡ (if is_cell cell task slot then Some index else last_read self.old task slot)) }
    {
        match cell {
            Some(cell) => self.add(cell, index),
            None => Ok(()),
        }
    }

    /// The index of the last access that reads a scalar; none where nothing reads it.
    pub(crate) fn of(&self, cell: Cell) -> Option<usize>
        ensures { result ≡ last_read self.now cell.task cell.slot }
    {
        self.last.get(&cell).copied()
    }
}

/// The scalar of a task that a name means.
fn cell_of(task: u32, what: Option<What>) -> Option<Cell>
    ensures { result ≡ cell_of task what }
{
    match what {
        Some(What::Scalar(slot)) => Some(Cell { task, slot }),
        _ => None,
    }
}

/// The scalar that an access reads.
fn read_by(meanings: &Meanings, access: Access) -> Option<Cell>
    ensures { result ≡ read_by (what_at meanings.now) access }
{
    match access.effect {
        Effect::Read => cell_of(access.site.task, meanings.at(access.place)),
        Effect::Change => None,
    }
}

/// The scalar that an access changes.
pub(crate) fn changed_by(meanings: &Meanings, access: Access) -> Option<Cell>
    ensures { result ≡ changed_by (what_at meanings.now) access }
{
    match access.effect {
        Effect::Read => None,
        Effect::Change => cell_of(access.site.task, meanings.at(access.place)),
    }
}

/// Where the scalars of tasks are read last.
#[tactic(auto, using(crate::proofs::SoFar::so_far))]
pub(crate) fn last_reads(
    alloc: Global,
    meanings: &Meanings,
    list: &[Access],
) -> Result<LastReads, Memory>
    ensures { IfOk result (λ last. AreLastReads list.now (what_at meanings.now) last (length list.now)) }
{
    let mut last = LastReads::new(alloc);
    for index in 0..list.len() {
        last.add_if(read_by(meanings, list[index]), index)?;
    }
    Ok(last)
}
