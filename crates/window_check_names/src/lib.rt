//! Names where they are used: what is in scope at a place, what a name means there, and which rules it violates.
//!
//! `Scopes` is a place of the program as a walk over it goes on: names are declared, looked up and hidden, scopes and
//! bodies are entered and left, and slots, elements of arrays, streams and functions are counted. Its contracts say what
//! each call does to a scope of os_ast. `Found` is what such a walk has found so far: the least violation, what each name
//! means and what each task captures, or all violations, or the scalars of `main` that a part of the program names.
//!
//! `used` and `size_name` find of one name, by what is in scope, what stands beside the trees: which rules it violates,
//! and what it means. `expressions` and `clauses` do so with all names of an expression, a change or the clauses of a
//! task, which leave in scope what there was; `members` has what the clauses list.
#![tactic(auto)]

pub mod broken_rules;
mod captures;
pub mod clauses;
mod declared;
pub mod expressions;
mod found;
mod meanings;
pub mod members;
mod scopes;
mod sizes;
mod uses;

pub use captures::{Captured, Slots};
pub use found::{Found, Judged};
pub use meanings::meaning;
pub use scopes::{EnclosingBody, Outer, Scopes, Totals};
pub use sizes::{size_name, size_of};
