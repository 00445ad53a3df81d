//! Laws of layouts, for the proofs of other crates. Each is a call that does nothing and ensures its
//! law.

ghost use Rattle.std.specs.Prelude.{◌≡◌, List, length};
ghost use Rattle.flow_core_laws.specs.declared.activation.Activation.{Activation};
ghost use Rattle.stream_match_layouts.specs.declared.layout.Layout.{Layout};
ghost use Rattle.stream_match_layouts.specs.Layout.{IsLayoutOf};

/// Activations have one layout over a given number of streams and an input of a given length. So a layout that
/// took them in parts is the one that took them at once.
pub fn one_layout()
    ensures { (one other : Layout) (activations : List Activation)
        → IsLayoutOf one activations → IsLayoutOf other activations
        → length one.writers ≡ length other.writers → one.input_len ≡ other.input_len → one ≡ other }
{}
