//! What the compiler shows of every program: laws of what programs mean that rest on a code of them.
//!
//! A draft is a function of the tree, so each program that a text is accepted as has a code, whatever memory there is, and one that
//! is no larger than `lower` makes it. What the machine keeps while it runs `main` of such a code is then known of the control
//! program: the activations that it creates are lawful, as layouts ask. Nothing runs here.
#![tactic(auto)]

pub mod laws;
