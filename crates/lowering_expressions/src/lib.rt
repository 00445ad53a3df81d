//! The code of what stands in statements: expressions, conditions, changes and declarators.
//!
//! Each call adds to a draft what `lowering_draft` says of the tree, by what its names mean, which `Told` finds by halving. The
//! walk over an expression tells its type beside it, by which the operators around it are chosen.
//! `lowering` makes the code of statements and whole programs of it.
#![tactic(auto)]

mod changes;
mod conditions;
mod declarators;
mod expressions;
mod mentions;
mod quiet;

pub use changes::emit_change;
pub use conditions::emit_condition;
pub use declarators::{emit_declarators, emit_start};
pub use expressions::{emit_call, emit_expr};
