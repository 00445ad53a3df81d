//! Parts of inputs, the terms on which they are cut, and outputs that are joined.
//!
//! There is nothing here but tests. The parts and the outputs that they want were cut and joined by hand.
#![tactic(auto)]

#[cfg(test)]
mod joined;
#[cfg(test)]
mod parts;
#[cfg(test)]
mod terms;
