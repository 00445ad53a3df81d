//! Why an activation starves, told and checked, where failed activations poison what they should have written.
//!
//! `walk` goes from a starved activation to the producer of its first missing element, and on, until there is none or one
//! comes again. `check_chain` takes any list of activations and says whether it is a chain, by the layout alone: so whoever
//! is told why an activation starves can check it without any run. What chains and walks are, and that each walk is a
//! chain and each member of a chain is starved, stands in `wait_certs_laws`.
//!
//! `find` says what there is to tell of any number: that no activation has it, that the activation has an end, or its walk with
//! what the last member misses; and `finding_line` puts that into a line.
//!
//! `walk` and `check_chain` go over each member once, and look up a producer for each element that it reads at most.
#![tactic(auto)]

mod awaiting;
mod check;
mod finding;
mod line;
mod vain;
mod walking;

pub use check::check_chain;
pub use finding::{Finding, find};
pub use line::finding_line;
pub use walking::walk;
