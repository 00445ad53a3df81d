//! What an activation writes.

ghost use Rattle.std.specs.Prelude.{◌≡◌, ◌<◌, None, Some, length};
ghost use Rattle.flow_core_laws.specs.Element.{output_element};

use crate::elem::Elem;

/// The output element at a place: poison with the root, where there is one; else the value that was written.
pub fn output_element(root: Option<u32>, outputs: &[i32], place: usize) -> Elem
    requires { root ≡ None → place < length outputs.now }
    ensures { output_element root outputs.now place ≡ Some result }
{
    match root {
        Some(root) => Elem::Poison(root),
        None => Elem::Value(outputs[place]),
    }
}
