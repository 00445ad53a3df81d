//! What whole programs mean, from their texts on: the activations of their control programs, and the ends of their
//! bodies with what they write.
//!
//! The tables have programs with values found by hand, or confirmed by gcc. The tests compare them with what the slow
//! programs of the meaning compute; other crates hold what they make of a program against the same tables.
//!
//! An activation is shown as `0 [2 5] r 0 3 1 s 4, w 1 2`: its task, its captured scalars, and its claims, a read claim
//! by its stream, horizon, burst and skip, a write claim by its stream and horizon.
#![tactic(auto)]

pub mod bodies;
pub mod case;
pub mod counted;
pub mod flows;
#[cfg(test)]
mod meaning;
pub mod programs;
pub mod unsigned_values;
pub mod values;
