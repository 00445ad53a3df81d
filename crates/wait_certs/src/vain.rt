ghost use Rattle.std.specs.Prelude.{◌≡◌, ℕ, ◌<◌, ◌≤◌, ◌↔◌, true, None, All, IfOk, List, if◌then◌else◌, length, slice_index_or, slice_set};
ghost use Rattle.flow_core_laws.specs.declared.activation.Activation.{Activation};
ghost use Rattle.stream_match_layouts.specs.Layout.{IsLayout, IsLayoutOf};
ghost use Rattle.stream_match_layouts.specs.Spans.{frame_count};
ghost use Rattle.wait_certs.specs.Searching.{AllEndedBut, EndsInVain, has_member};

use collector::first_missing;
use flow_core_laws::{Ends, TaskEnd};
use os_io::{List, Memory};
use std::alloc::Global;
use stream_match_layouts::Layout;

/// Whether the last member of a list awaits what nobody gives, or what a member should give: it misses an element, if all
/// but the members have an end.
pub(crate) fn ends_in_vain(alloc: Global, layout: &Layout, chain: &[u32]) -> Result<bool, Memory>
    requires layout { IsLayout layout.now }
    requires some { 1 ≤ length chain.now }
    requires exist { All (λ a. a < frame_count layout.now) chain.now }
    ensures { IfOk result (λ vain. (activations : List Activation) → IsLayoutOf layout.now activations
        → (vain ≡ true) ↔ EndsInVain activations layout.now.input_len chain.now) }
{
    let ends = all_ended_but(alloc, layout, chain)?;
    let last = chain[chain.len() - 1];
    let missing = first_missing(layout, &ends, last);
    Ok(missing.is_some())
}

/// Ends by which all activations are done but the members of a list, which have none.
fn all_ended_but(alloc: Global, layout: &Layout, members: &[u32]) -> Result<Ends, Memory>
    requires layout { IsLayout layout.now }
    requires exist { All (λ a. a < frame_count layout.now) members.now }
    ensures { IfOk result (λ ends. AllEndedBut layout.now members.now ends.ends) }
{
    let mut ends = List::filled(alloc, Some(TaskEnd::Done), layout.frames())?;
    open_all(&mut ends, members);
    Ok(Ends {
        ends,
        output: List::new(alloc),
    })
}

/// Takes the ends of some activations away.
fn open_all(ends: &mut List<Option<TaskEnd>>, members: &[u32])
    requires { All (λ a. a < length ends.old) members.now }
    ensures { (a : ℕ) → a < length ends.old → slice_index_or ends.new a None ≡ (if has_member members.now a then None else slice_index_or ends.old a None) }
{
    for member in members {
        open(ends, *member);
    }
}

/// Takes the end of an activation away.
fn open(ends: &mut List<Option<TaskEnd>>, member: u32)
    requires { member < length ends.old }
    ensures { ends.new ≡ slice_set ends.old member None }
{
    ends.as_mut_slice()[member as usize] = None;
}
