ghost use Rattle.std.specs.Prelude.{◌≡◌, ◌≤◌, IfOk, length};
ghost use Rattle.flow_core_laws.specs.Limits.{input_limit};
ghost use Rattle.stream_match_layouts.specs.Lawful.{AreLawful};
ghost use Rattle.stream_match_layouts.specs.Layout.{IsLayout, IsLayoutOf};

use flow_core_laws::Control;
use os_code::Code;
use os_io::Memory;
use std::alloc::Global;
use stream_match::Layout;

/// The positions of the activations that a control program created, over an input.
pub fn lay_out(
    alloc: Global,
    code: &Code,
    control: &Control,
    input: &[u8],
) -> Result<Layout, Memory>
    requires lawful { AreLawful code.now.streams control.now.activations }
    requires few { length input.now ≤ input_limit }
    ensures layout { IfOk result (λ layout. IsLayoutOf layout control.now.activations) }
    ensures whole { IfOk result IsLayout }
    ensures input { IfOk result (λ layout. layout.input_len ≡ length input.now) }
{
    let mut layout = Layout::new(alloc, code.streams, input.len() as u32)?;
    layout.append(control.activations.as_slice())?;
    Ok(layout)
}
