//! Tokens to the trees of expressions.
//!
//! `Cursor` is a place in a list of tokens, `ProductionError` says why a production was not read, and `deeper` counts the depth that
//! is left. Over these stand the productions of expressions: `expr`, `index` with its brackets, and `target` and `args`,
//! which follow a name that was read. Chains are read by loops, and the depth that is left is carried along, so the stack
//! is bounded.
//! Each function's contract says that it gives, and leaves the cursor, as its definition in `os_parser_grammar` says.
#![tactic(auto)]

mod cursor;
mod depth;
mod expressions;
mod operators;
mod production_error;

pub use cursor::Cursor;
pub use depth::deeper;
pub use expressions::{args, expr, index, target};
pub use operators::NUMBER_BOUND;
pub use production_error::ProductionError;
