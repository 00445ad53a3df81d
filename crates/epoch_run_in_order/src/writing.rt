//! Writing what an activation came to behind the elements of a stream.

ghost use Rattle.std.specs.Prelude.{◌≡◌, ◌+◌, ◌++◌, ◌≤◌, None, OnOk, Some, length, map, replicate};
ghost use Rattle.flow_core_laws.specs.declared.elem.Elem.TheVariants as elem;
ghost use Rattle.epoch_run_in_order.specs.Writing.{written_through};

use flow_core_laws::Elem;
use os_io::{List, Memory};
use stream_match_layouts::Span;

/// Adds what an activation writes through a span of the stream: poison, where there is a root, and else outputs.
pub(crate) fn write(
    elements: &mut List<Option<Elem>>,
    span: &Span,
    root: Option<u32>,
    outputs: &[i32],
) -> Result<(), Memory>
    requires { root ≡ None → span.now.offset + span.now.count ≤ length outputs.now }
    ensures { OnOk result (elements.new ≡ elements.old ++ written_through root outputs.now span.now) }
{
    match root {
        Some(root) => add_poison(elements, root, span.count),
        None => {
            let first = span.offset as usize;
            add_values(elements, &outputs[first..first + span.count as usize])
        }
    }
}

/// Adds `count` poisoned elements with one root.
fn add_poison(elements: &mut List<Option<Elem>>, root: u32, count: u32) -> Result<(), Memory>
    ensures { OnOk result (elements.new ≡ elements.old ++ replicate count (Some (elem.Poison root))) }
{
    for _ in 0..count {
        elements.push(Some(Elem::Poison(root)))?;
    }
    Ok(())
}

/// Adds elements that are values.
fn add_values(elements: &mut List<Option<Elem>>, values: &[i32]) -> Result<(), Memory>
    ensures { OnOk result (elements.new ≡ elements.old ++ map (λ value. Some (elem.Value value)) values.now) }
{
    for value in values {
        elements.push(Some(Elem::Value(*value)))?;
    }
    Ok(())
}
