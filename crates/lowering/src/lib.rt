//! The compiler: `lower` makes a code of each program that the checks accept.
//!
//! A draft of the code grows instruction by instruction, in one walk over the tree. Each function gets a unit, `main`
//! among them, and behind these each task; then a second pass puts places for labels. What is drafted, as a function of
//! the tree, and that it stands for the tree, is in `lowering_draft`.
//!
//! The code of `lower` is valid, each activation that fits it ends on the machine as the body of its task means, `main`
//! creates what the control program creates, and there are at most 8 instructions a token.
#![tactic(auto)]

mod compiler;
mod items;
mod statements;
mod tasks;
mod units;

pub use compiler::{LowerError, lower};
pub use lowering_draft::laws;
