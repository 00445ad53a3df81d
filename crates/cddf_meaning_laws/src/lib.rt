//! Types everywhere: that the law of `cddf_meaning` on values with types speaks of every expression that a program comes to.
//!
//! That law asks that the numbers of an expression are those of tokens, and that what stands for 32 bits in a state is an `int`.
//! Here stand all expressions of a program, those in the clauses of its tasks too, and that each has its numbers. `main` begins with
//! `int`s alone, and a task does where it captures and reads `int`s. What activations capture are `int`s, and what bodies write and
//! what activations read in the meaning. Nothing runs here.
#![tactic(auto)]

pub mod laws;
