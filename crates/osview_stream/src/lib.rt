//! The elements of a stream, as lines of text.
//!
//! `called_stream` finds the stream that a word names, by where the names of the streams stand in the program's text.
//! `elements_text` takes the layout of a run and what its activations came to, and gives a line for each position of a stream:
//! its element, as the meaning of the activations has it, and who writes there. It stands on the outcomes of `osview_outcomes`.
//!
//! Its promise is the definition `stream_lines` in `specs/Elements.antt`, over any list of activations.
#![tactic(auto)]

mod called;
mod element;
mod lines;

pub use called::called_stream;
pub use lines::{Shown, elements_text};
