//! Codes written out, on the machine: what tasks and `main` come to, step by step.
//!
//! There is nothing here but tests. Ends, steps, elements and activations were worked out by hand from what the
//! instructions do. The definitions in `specs/` are of the codes that the tests write out, and nothing else cites them.
#![tactic(auto)]

#[cfg(test)]
mod controls;
#[cfg(test)]
mod main_runs;
#[cfg(test)]
mod needs;
#[cfg(test)]
mod stretches;
#[cfg(test)]
mod task_runs;
#[cfg(test)]
mod tasks;
#[cfg(test)]
mod written;
