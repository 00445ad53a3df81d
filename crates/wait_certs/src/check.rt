ghost use Rattle.std.specs.Prelude.{◌≡◌, ◌<◌, ◌+◌, ◌↔◌, ℕ, true, false, All, IfOk, List, length, slice_index};
ghost use Rattle.flow_core_laws.specs.declared.activation.Activation.{Activation};
ghost use Rattle.stream_match_layouts.specs.Layout.{IsLayout, IsLayoutOf};
ghost use Rattle.stream_match_layouts.specs.Spans.{frame_count};
ghost use Rattle.wait_certs_laws.specs.Chain.{IsChain};
ghost use Rattle.wait_certs.specs.Searching.{reads_from};

use crate::awaiting::awaits;
use crate::vain::ends_in_vain;
use os_io::Memory;
use std::alloc::Global;
use stream_match_layouts::Layout;

/// Whether a list of activations is a chain, by the layout alone: then each of its members starves, whatever the bodies do. An
/// empty list is none, nor is one with a number that no activation has.
pub fn check_chain(alloc: Global, layout: &Layout, chain: &[u32]) -> Result<bool, Memory>
    requires { IsLayout layout.now }
    ensures { IfOk result (λ accepted. (activations : List Activation) → IsLayoutOf layout.now activations
        → (accepted ≡ true) ↔ IsChain activations layout.now.input_len chain.now) }
{
    if chain.len() == 0 {
        return Ok(false);
    }
    if !are_frames(layout, chain) {
        return Ok(false);
    }
    if !are_linked(layout, chain) {
        return Ok(false);
    }
    let vain = ends_in_vain(alloc, layout, chain)?;
    Ok(vain)
}

/// Whether each number of a list is that of an activation.
fn are_frames(layout: &Layout, members: &[u32]) -> bool
    requires { IsLayout layout.now }
    ensures yes { result ≡ true → All (λ a. a < frame_count layout.now) members.now }
    ensures no { result ≡ false → ¬ (All (λ a. a < frame_count layout.now) members.now) }
{
    let count = layout.frames();
    for member in members {
        if *member as usize >= count {
            return false;
        }
    }
    true
}

/// Whether each member of a list but the last reads an element that the next one should write.
fn are_linked(layout: &Layout, members: &[u32]) -> bool
    requires layout { IsLayout layout.now }
    requires exist { All (λ a. a < frame_count layout.now) members.now }
    ensures yes { (activations : List Activation) → IsLayoutOf layout.now activations → result ≡ true
        → (k : ℕ) → k + 1 < length members.now → reads_from activations (slice_index members.now k) (slice_index members.now (k + 1)) ≡ true }
    ensures no { (activations : List Activation) → IsLayoutOf layout.now activations → result ≡ false
        → (k : ℕ) × (k + 1 < length members.now) × (reads_from activations (slice_index members.now k) (slice_index members.now (k + 1)) ≡ false) }
{
    for next in 1..members.len() {
        if !awaits(layout, members[next - 1], members[next]) {
            return false;
        }
    }
    true
}
