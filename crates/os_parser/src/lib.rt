//! Tokens to trees.
//!
//! `parse` reads the one program that a list of tokens means, and answers `Syntax` exactly where the tokens
//! mean none, with the place where they stop being the front of any program. `one_reading` and `one_place` are the laws
//! that there is at most one such program and one such place. `is_front` tells whether any program begins with tokens.
//!
//! The reader goes down the grammar with one function a production, over a `Cursor`, in time linear in the
//! tokens: `os_parser_expressions` has those of expressions, `os_parser_parts` those of what statements are made of, and
//! here stand those of statements that lead back to statements, and of programs. The depth that is left is carried along,
//! so the stack is bounded.
//! Each function's contract says that it gives, and leaves the cursor, as its definition in `os_parser_grammar` says;
//! the proofs there show of these definitions that what they give is spelled by the tokens, and that what is
//! spelled is given again. `os_parser_places` shows that they refuse at the place.
#![tactic(auto)]

mod parse_error;
mod program;
mod reading;
mod stmt;

pub use parse_error::ParseError;
pub use reading::{is_front, one_place, one_reading, parse};
