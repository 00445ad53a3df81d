//! Compiled programs beside what they mean.
//!
//! There is nothing here but tests. Each takes a table of programs, compiles them and runs them on the machines, and
//! compares ends, elements and activations with what `plain_body` and `plain_control` compute, or with values found by
//! hand.
#![tactic(auto)]

#[cfg(test)]
mod beside;
#[cfg(test)]
mod bodies;
#[cfg(test)]
mod codes;
#[cfg(test)]
mod compiled;
#[cfg(test)]
mod controls;
#[cfg(test)]
mod depths;
#[cfg(test)]
mod elements;
#[cfg(test)]
mod examples;
#[cfg(test)]
mod large;
#[cfg(test)]
mod lengths;
#[cfg(test)]
mod operators;
#[cfg(test)]
mod programs;
#[cfg(test)]
mod statements;
#[cfg(test)]
mod texts;
