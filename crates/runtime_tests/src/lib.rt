//! Layouts, plans and runs of activations, and what is told of them.
//!
//! There is nothing here but tests. Layouts, plans and reports are compared with those that were found by hand, runs on
//! several workers with a run on one thread, and runs with what a count by hand gives. A seat of a table is stepped on
//! call by call, along states that were written down by hand.
#![tactic(auto)]

#[cfg(test)]
mod activations;
#[cfg(test)]
mod bytes;
#[cfg(test)]
mod epochs;
#[cfg(test)]
mod hands;
#[cfg(test)]
mod layouts;
#[cfg(test)]
mod literals;
#[cfg(test)]
mod one_seat;
#[cfg(test)]
mod one_thread;
#[cfg(test)]
mod plans;
#[cfg(test)]
mod reports;
#[cfg(test)]
mod rounds;
mod told;
#[cfg(test)]
mod waiting;
