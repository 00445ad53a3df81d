//! What code stands for a program's tree, and that it does what the tree means.
//!
//! There is no code here but laws. `specs/` says which instructions stand for which tree, part by part: names,
//! expressions, changes, declarators, tasks, statements, and whole programs. It says where each part stands, with its
//! jump targets as parameters, and computes no list of code, so that an emitter is free to be short where two ways have
//! one meaning. An operator is that on bits which the types of its operands choose. `proofs/` follows the machine of
//! `os_code` beside the meaning of `cddf_meaning` over such code: names stand for slots and windows as their declarations
//! are aligned with them, and have the types of these. Beside it they show that the code of a lawful program is valid,
//! part by part: it goes from one height of the operand stack to another, and names only what is there.
//! `laws` has what comes of it, and beside it that a lawful program finds its names and that the bodies of activations fill
//! their output windows, which need no code.
#![tactic(auto)]

pub mod laws;
