//! Why an activation starves, where failed activations poison what they should have written: definitions and laws.
//!
//! A starved activation awaits what nobody gives, or waits for itself through others. So positions alone show it: a chain
//! leads from it over who should write what is awaited. `specs/` says what a chain is, by the claims of the activations
//! and the length of the input, and what the walk of a starved activation is, the chain that one finds by going from each
//! to the producer of its first missing element. `laws` says that the members of chains are starved whatever their bodies
//! do, and that each starved activation has a chain, its walk. Nothing runs here.
#![tactic(auto)]

pub mod laws;
