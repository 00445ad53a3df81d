//! Batches of activations on several workers: what they come to, beside what one thread comes to that runs the plan of all activations.
//!
//! There is nothing here but tests.
#![tactic(auto)]

#[cfg(test)]
mod across_slots;
#[cfg(test)]
mod cases;
#[cfg(test)]
mod cuts;
#[cfg(test)]
mod empty_slots;
#[cfg(test)]
mod runs;
