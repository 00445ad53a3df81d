ghost use Rattle.std.specs.Prelude.{◌≡◌, ◌-◌, ◌≤◌, ◌++◌, length, take, replicate};

/// Sets the bytes of a buffer to 0 from a place on.
pub(crate) fn clear_behind(buffer: &mut [u8], from: usize)
    requires { from ≤ length buffer.old }
    ensures { buffer.new ≡ take from buffer.old ++ replicate (length buffer.old - from) 0 }
{
    buffer[from..].fill(0);
}
