ghost use Rattle.std.specs.Prelude.{◌≡◌, ◌<◌, List, length};
ghost use Rattle.flow_core_laws.specs.declared.activation.Activation.{Activation};
ghost use Rattle.flow_core_laws.specs.Place.{written_count};
ghost use Rattle.stream_match_layouts.specs.Layout.{IsLayout, IsLayoutOf};

use stream_match_layouts::Layout;

/// How many positions of a stream are claimed for writing.
pub fn written_count(layout: &Layout, stream: u32) -> u64
    requires layout { IsLayout layout.now }
    ensures exists { 0 < result → stream < length layout.now.writers }
    ensures count { (activations : List Activation) → IsLayoutOf layout.now activations
        → result ≡ written_count activations stream }
{
    match layout.cursors.writes.as_slice().get(stream as usize) {
        Some(count) => *count,
        None => 0,
    }
}
