ghost use Rattle.std.specs.Prelude.{◌≡◌, All, IfOk, length, take};
ghost use Rattle.flow_core_laws.specs.Byte.{IsByte};
ghost use Rattle.collector.specs.Written.{IsByteIfThere, byte_of, written};

use flow_core_laws::{Elem, Ends};
use os_io::Memory;
use std::alloc::Global;

/// The bytes that a run writes: the values of the output before the first element that isn't there or is poison.
pub fn output_bytes(alloc: Global, ends: &Ends) -> Result<Vec<u8>, Memory>
    requires bytes { All IsByteIfThere ends.now.output }
    ensures written { IfOk result (λ bytes. bytes.items ≡ written ends.now.output) }
{
    let mut bytes = Vec::new(alloc);
    bytes.resize(ends.output.len(), 0)?;
    let count = put_values(bytes.as_mut_slice(), ends.output.as_slice());
    bytes.truncate(count);
    Ok(bytes)
}

/// Puts the values before the first element that isn't there or is poison into the first of as many bytes, and tells how many
/// these are.
fn put_values(bytes: &mut [u8], output: &[Option<Elem>]) -> usize
    requires bytes { All IsByteIfThere output.now }
    requires room { length bytes.old ≡ length output.now }
    ensures { take result bytes.new ≡ written output.now }
{
    for number in 0..output.len() {
        let Some(Elem::Value(value)) = output[number] else {
            return number;
        };
        bytes[number] = byte_of(value);
    }
    output.len()
}

/// A value as a byte.
fn byte_of(value: i32) -> u8
    requires { IsByte value }
    ensures { result ≡ byte_of value }
{
    value as u8
}
