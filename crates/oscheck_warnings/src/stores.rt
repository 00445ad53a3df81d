//! Changes of scalars in tasks that nothing reads.

ghost use Rattle.std.specs.Prelude.{◌≡◌, IfOk, length};
ghost use Rattle.os_ast.specs.Views.{program_tree};
ghost use Rattle.oscheck_warnings.specs.Accesses.{accesses};
ghost use Rattle.oscheck_warnings.specs.DeadStores.{AreDeadStores};
ghost use Rattle.oscheck_warnings.specs.LastReads.{is_dead, is_unread, last_read, AreLastReads};
ghost use Rattle.oscheck_warnings.specs.Meanings.{what_at, meaning_at};

use crate::access::Access;
use crate::last_reads::{LastReads, changed_by, last_reads};
use crate::meanings::Meanings;
use crate::places::Places;
use crate::statements::accesses;
use os_ast::{Program, Resolved};
use os_io::Memory;
use std::alloc::Global;

/// Whether nothing reads a scalar after a change, by where it is read last.
fn is_unread(read: Option<usize>, looped: bool, index: usize) -> bool
    ensures { result ≡ is_unread read looped index }
{
    match read {
        Some(read) => !looped && read <= index,
        None => true,
    }
}

/// Whether an access changes a scalar of a task that nothing reads after it.
fn is_dead(last: &LastReads, meanings: &Meanings, access: Access, index: usize) -> bool
    ensures { result ≡ is_dead (last_read last.now) (what_at meanings.now) access index }
{
    match changed_by(meanings, access) {
        Some(cell) => cell.is_in_task() && is_unread(last.of(cell), access.site.looped, index),
        None => false,
    }
}

/// The places of the changes of scalars in tasks that nothing reads, by the accesses of the program.
#[tactic(auto, using(crate::proofs::Unread::unread))]
fn marked(
    alloc: Global,
    last: &LastReads,
    meanings: &Meanings,
    list: &[Access],
) -> Result<Places, Memory>
    requires { AreLastReads list.now (what_at meanings.now) last.now (length list.now) }
    ensures { IfOk result (λ places. AreDeadStores list.now (what_at meanings.now) places) }
{
    let mut places = Places::new(alloc);
    for index in 0..list.len() {
        places.add_if(
            is_dead(last, meanings, list[index], index),
            list[index].place,
        )?;
    }
    Ok(places)
}

/// The places of the names of scalars that tasks change, where nothing in the task reads the scalar after that. What the names of the
/// program mean is handed in, at each place one.
pub fn dead_stores(alloc: Global, program: &Program, names: &[Resolved]) -> Result<Places, Memory>
    ensures { IfOk result (AreDeadStores (accesses (program_tree program.now)) (meaning_at names.now)) }
{
    let meanings = Meanings::of(alloc, names)?;
    let list = accesses(alloc, program)?;
    let last = last_reads(alloc, &meanings, list.as_slice())?;
    marked(alloc, &last, &meanings, list.as_slice())
}
