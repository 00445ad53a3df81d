//! Traces as text: what is written of lists of frames, and which line of a text is told.
//!
//! There is nothing here but tests. The texts were written by hand.
#![tactic(auto)]

#[cfg(test)]
mod texts;
