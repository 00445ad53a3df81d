//! Texts that are put together, and numbers that stand in them.
//!
//! A `Text` is bytes that grow, with numbers in decimals; nothing but the text itself takes memory. `activation_word` has the word
//! behind a number of activations.
#![tactic(auto)]

mod text;
mod words;

pub use text::Text;
pub use words::activation_word;
