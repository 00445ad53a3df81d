//! The longest chain of a run: frames that ran, each of which waits for the next one.
//!
//! `longest_chain` takes a plan, the steps of each frame that ran, and the frames in an order in which each stands behind those
//! that it waits for. It answers how many steps a longest chain takes: that there is such a chain, and none with more steps, is
//! its promise. It goes once through the frames and their pieces.
#![tactic(auto)]

mod longest;

pub use longest::longest_chain;
