//! The trees of programs, and what it means that a list of tokens is the program of a tree.
//!
//! The types are plain data: expressions, statements, pragmas and programs, with the marks of the tokens
//! that a later stage names in a refusal or a trap. `depth` counts how deep a program is nested.
//!
//! The definitions stand in `specs/` on trees without boxes (`Trees`, reached from the code by `Views`):
//! `Spelling` prints a tree as tokens, production by production; `Leveled` says where each part may stand;
//! `Depth` says how deep it is; `Means` joins them to what a list of tokens means, and states that this is
//! at most one program; `Fronts` says where a list of tokens stops being the front of any program, which is where it is
//! refused. What names mean, and which rules they have to keep, stand in `Names`, `Notes`, `Rules` and `Violations`. `laws` and `examples`
//! show that these definitions are the ones that were meant.
#![tactic(auto)]

pub mod examples;
mod expr;
pub mod laws;
mod limits;
mod names;
mod nesting;
mod pragma;
mod program;
pub mod refusals;
mod rule;
mod stmt;
mod ty;
mod violation;

pub use expr::{Binary, Call, Expr, Index, Level, Link, Mark, Name, Target, Unary};
pub use limits::{
    ALL_STREAMS_LIMIT, ARRAYS_LIMIT, CAPTURED_LIMIT, DEPTH_LIMIT, ELEMENTS_LIMIT, ITEMS_LIMIT,
    SIZE_LIMIT, SLOTS_LIMIT, STREAMS_LIMIT,
};
pub use names::{Direction, Entity, Entry, Form, Owner, Resolved, Role, Shape, Use, What};
pub use nesting::depth;
pub use pragma::{Clause, ClauseItem, ClauseKind, Join, TaskSite, TickSite};
pub use program::{Constant, Function, Item, Param, Params, Program};
pub use rule::Rule;
pub use stmt::{Assign, Change, Declarator, Head, Start, Step, Stmt};
pub use ty::Ty;
pub use violation::Violation;
