ghost use Rattle.std.specs.Prelude.{◌≤◌, length};
ghost use Rattle.ospack_slots.specs.Slots.{HasLength};

/// The length that bytes begin with.
pub(crate) fn length_at_front(bytes: &[u8]) -> u16
    requires { 2 ≤ length bytes.now }
    ensures { HasLength bytes.now result }
{
    bytes[0] as u16 + 256 * (bytes[1] as u16)
}
