//! Which list a frame stands in.
ghost use Rattle.std.specs.Prelude.{◌≡◌, ◌+◌, ◌≤◌, ◌<◌, IfOk, IfSome, IfNone, length};
ghost use Rattle.flow_core_laws.specs.Limits.{workers_limit};
ghost use Rattle.trace_replay_laws.specs.Lists.{AreBelow, IsFirstRepeat};
ghost use Rattle.trace_replay.specs.Owners.{AreOwnersOf, OwnBefore};

use flow_core_laws::WORKERS_LIMIT;
use os_io::{List, Memory};
use std::alloc::Global;

/// The owner of a frame that stands in no list: all lists have lesser numbers.
const NOBODY: u32 = WORKERS_LIMIT;

/// Which list each frame stands in.
#[derive(Drop)]
pub(crate) enum Owners {
    /// By frame, the number of its list, or another number.
    Of(Vec<u32>),
    /// The lists repeat a frame: this is the first that stands a second time.
    Repeat(u32),
}

/// Makes a list the owner of its numbers. It answers the first one that has an owner.
fn own(owners: &mut [u32], lists: &[List<u32>], list: usize) -> Option<u32>
    requires few { length lists.now ≤ workers_limit }
    requires exists { list < length lists.now }
    requires below { AreBelow (length owners.old) lists.now }
    requires so_far { OwnBefore lists.now list 0 owners.old }
    ensures some { IfSome result (IsFirstRepeat lists.now) }
    ensures none { IfNone result (OwnBefore lists.now (list + 1) 0 owners.new) }
    ensures same { length owners.new ≡ length owners.old }
{
    let numbers = lists[list].as_slice();
    for (place, frame) in numbers.iter().enumerate() {
        let frame = *frame;
        if owners[frame as usize] != NOBODY {
            return Some(frame);
        }
        owners[frame as usize] = list as u32;
    }
    None
}

/// Which list each of `frames` frames stands in.
pub(crate) fn owners_of(alloc: Global, frames: usize, lists: &[List<u32>]) -> Result<Owners, Memory>
    requires few { length lists.now ≤ workers_limit }
    requires below { AreBelow frames lists.now }
    ensures { IfOk result (AreOwnersOf lists.now frames) }
{
    let mut owners = Vec::new(alloc);
    owners.resize(frames, NOBODY)?;
    for list in 0..lists.len() {
        if let Some(frame) = own(owners.as_mut_slice(), lists, list) {
            return Ok(Owners::Repeat(frame));
        }
    }
    Ok(Owners::Of(owners))
}
