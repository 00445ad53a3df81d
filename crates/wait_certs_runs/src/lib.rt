//! The runs of programs and of valid codes: laws of what each comes to, over every input.
//!
//! The activations that a control program creates are lawful, and those that are done filled their output windows. So the laws of
//! chains hold of every run: each activation that starves has a chain, its walk, which is no longer than there are activations and
//! which `explain` tells; and the producer that a line of the report names starves too. The machine makes no more steps for a run than
//! its budgets allow, and the tasks of a program begin with `int`s alone. Nothing runs here.
#![tactic(auto)]

pub mod laws;
