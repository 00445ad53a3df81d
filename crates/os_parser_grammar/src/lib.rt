//! The grammar as definitions: what each of its productions reads of a list of tokens.
//!
//! There is no code here but laws, and the types of what a token says: how an operand, a statement or a change goes on.
//! `specs/` has one definition for each production, on tokens with their marks: it gives a tree and the tokens that are
//! left, or the tokens from the one that was refused on. A part that stands one deeper is read by the readers of a depth
//! that is less by one, so that each definition ends. A parser that keeps to them, production by production, reads what
//! the tokens mean.
//! `proofs/` shows that what a production gives is leveled, as shallow as it may be, and spelled by the tokens that it
//! took, and that what is spelled is given again. `laws` has what comes of it for whole programs.
#![tactic(auto)]

mod change_sign;
pub mod laws;
mod numeral;
mod operand_start;
mod stmt_start;

pub use change_sign::ChangeSign;
pub use numeral::Numeral;
pub use operand_start::OperandStart;
pub use stmt_start::StmtStart;
