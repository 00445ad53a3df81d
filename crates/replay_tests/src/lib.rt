//! Replays of small plans: what lists of frames come to, worked out by hand, and that lists which workers left are whole.
//!
//! There is nothing here but tests.
#![tactic(auto)]

#[cfg(test)]
mod answers;
#[cfg(test)]
mod plans;
#[cfg(test)]
mod workers;
