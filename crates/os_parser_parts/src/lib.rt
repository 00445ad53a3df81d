//! Tokens to the parts of statements.
//!
//! Over the cursor and the expressions of `os_parser_expressions` stand the productions of what statements are made of: names,
//! declarators, changes, calls, the heads of loops, and the clauses of tasks, with the statements that hold no other. `stmt_at`
//! says how a statement begins with the next token.
//! Lists with commas are read by one function, `comma_list`, over the production that they are made of, which is a `Production`.
//! Each function's contract says that it gives, and leaves the cursor, as its definition in `os_parser_grammar` says.
#![tactic(auto)]

pub mod comma_list;
mod heads;
mod parts;
mod pragmas;
mod starts;

pub use heads::{condition, head};
pub use parts::{before, begins_type, declared, name, named_stmt, return_stmt, type_words};
pub use pragmas::{clauses, taskwait, tick};
pub use starts::{number_at, stmt_at};
