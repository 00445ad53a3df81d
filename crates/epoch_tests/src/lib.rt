//! Compiled programs, run in epochs.
//!
//! There is nothing here but tests: a run in short epochs, by one worker or several, comes to what one epoch comes to, and so does one
//! in control order, portioned out among several workers or not, also where `main` ends in the middle of one; and `main` by stretches creates
//! what it creates at once.
#![tactic(auto)]

#[cfg(test)]
mod compiled;
#[cfg(test)]
mod ends;
#[cfg(test)]
mod examples;
#[cfg(test)]
mod lengths;
#[cfg(test)]
mod portions;
#[cfg(test)]
mod stretches;
#[cfg(test)]
mod ways;
