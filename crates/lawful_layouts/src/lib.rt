//! Layouts of activations that may not be lawful, and bodies for the frames of their plans.
//!
//! It takes any activations and gives their layout, or none exactly where the limits of a run or the rules of claims don't admit
//! them. The runtime asks for lawful ones, since its activations are lawful by what created them; tests and measurements that
//! write activations out find out here. `Lasts` are bodies that do as little as can be told from what they give.
#![tactic(auto)]

mod lasts;
mod lawful;

pub use lasts::Lasts;
pub use lawful::lawful_layout;
