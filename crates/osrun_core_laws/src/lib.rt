//! Laws of what the command leaves that rest on laws of every run.
//!
//! `osrun_core::laws` says status by status what the record of an answer comes to. Here stands what that tells of activations that
//! starve: each of them in the run of a job has a chain of at most as many members as there are activations, which is its walk; the line
//! that `explain` writes is that chain; and the producer that a line of a report names starves too. Nothing runs here.
#![tactic(auto)]

pub mod laws;
