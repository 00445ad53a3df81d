//! Stream positions: where each claim of an activation begins, and who produces an element.
//!
//! Activations come in control order. `Layout::append` gives each claim its positions by the cursors of
//! its stream, as `Cursors` move them, and keeps for each stream its write claims in order. `Layout::producer` finds the write
//! claim that covers a position by halving, and `Layout::spans_of` gives the claims of one activation.
//!
//! Its promise is the meaning of the activations in `flow_core_laws`: the spans are their windows, and the
//! producer is theirs. Which activations a layout takes is said by `AreLawful`. That a layout made in
//! parts is the one made at once stands in `laws`.
#![tactic(auto)]

mod cursors;
mod frame_spans;
pub mod laws;
mod layout;
mod offsets;
mod producer;
mod span;

pub use cursors::Cursors;
pub use layout::Layout;
pub use offsets::Offsets;
pub use span::Span;
