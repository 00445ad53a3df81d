//! Why activations starve: walks and chains of small layouts.
//!
//! There is nothing here but tests. The layouts and what is told of them were worked out by hand.
#![tactic(auto)]

#[cfg(test)]
mod told;
