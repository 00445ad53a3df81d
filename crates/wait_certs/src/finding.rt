ghost use Rattle.std.specs.Prelude.{◌≡◌, ◌<◌, ◌≤◌, IfOk, List, length};
ghost use Rattle.flow_core_laws.specs.declared.activation.Activation.{Activation};
ghost use Rattle.stream_match_layouts.specs.Layout.{IsLayout, IsLayoutOf};
ghost use Rattle.stream_match_layouts.specs.Spans.{frame_count};
ghost use Rattle.collector.specs.Missing.{missing};
ghost use Rattle.wait_certs_laws.specs.Chain.{last_of};
ghost use Rattle.wait_certs.specs.Finding.{IsFinding};
ghost use Rattle.wait_certs.specs.declared.finding.Finding.TheVariants as findings;

use crate::walking::walk;
use collector::{Missing, first_missing};
use flow_core_laws::Ends;
use os_io::{List, Memory};
use std::alloc::Global;
use stream_match_layouts::Layout;

/// What there is to tell of an activation of a run.
#[derive(Debug, Drop)]
pub enum Finding {
    /// There is no activation of that number.
    Absent,
    /// It has an end, so it isn't starved.
    Ended,
    /// It is starved.
    Starved {
        /// The members of its walk: it, and then each for which the one before it waits.
        members: List<u32>,
        /// What the last of them misses. By the ends of a run there is such an element.
        last: Option<Missing>,
    },
}

/// What there is to tell of an activation, by the ends of a run: whether there is one of that number, whether it has an end, and else
/// its walk, with what the last member misses.
pub fn find(alloc: Global, layout: &Layout, ends: &Ends, activation: u32) -> Result<Finding, Memory>
    requires layout { IsLayout layout.now }
    ensures { IfOk result (λ finding. (activations : List Activation) → IsLayoutOf layout.now activations
        → IsFinding activations layout.now.input_len ends.now.ends activation finding) }
{
    if activation as usize >= layout.frames() {
        return Ok(Finding::Absent);
    }
    let members = walk(alloc, layout, ends, activation)?;
    match members {
        Some(members) => Ok(starved(layout, ends, members)),
        None => Ok(Finding::Ended),
    }
}

/// A walk, with what its last member misses.
fn starved(layout: &Layout, ends: &Ends, members: List<u32>) -> Finding
    requires layout { IsLayout layout.now }
    requires some { 1 ≤ length members }
    requires last_exists { last_of members < frame_count layout.now }
    ensures { (activations : List Activation) → IsLayoutOf layout.now activations
        → result ≡ findings.Starved members (missing activations layout.now.input_len ends.now.ends (last_of members)) }
{
    let numbers = members.as_slice();
    let last = first_missing(layout, ends, numbers[numbers.len() - 1]);
    Finding::Starved { members, last }
}
