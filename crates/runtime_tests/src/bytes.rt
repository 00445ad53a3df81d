//! Whether elements are bytes, which the output's are.

ghost use Rattle.std.specs.Prelude.{◌≡◌, All, true};
ghost use Rattle.collector.specs.Written.{IsByteIfThere};

use flow_core::Elem;

/// Whether the elements that are values are bytes.
pub(crate) fn are_bytes(elements: &[Option<Elem>]) -> bool
    ensures { result ≡ true → All IsByteIfThere elements.now }
{
    for element in elements {
        if !is_byte(*element) {
            return false;
        }
    }
    true
}

/// Whether an element is a byte where it is a value.
fn is_byte(element: Option<Elem>) -> bool
    ensures { result ≡ true → IsByteIfThere element }
{
    match element {
        Some(Elem::Value(value)) => 0 <= value && value <= 255,
        Some(Elem::Poison(_)) | None => true,
    }
}
