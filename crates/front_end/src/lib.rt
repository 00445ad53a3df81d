//! From a text's bytes to a checked program, in one call.
//!
//! `read_program` is the way through tokens, tree and checks. It gives the program that the text means, where the text
//! means one that violates no rule; and else what is wrong with the text, and where: its first fault, that its tokens
//! mean no program, or its least violation. Each answer comes exactly where it is right, unless memory runs out.
//! `TextRefusal` is what is wrong, and has its code; why a text has no tokens is a `Fault` of `os_lexer`.
//!
//! `specs/Texts.antt` says what a text means and what is wrong with it, over the token cover, the program of a token
//! list, the place where tokens are refused, and the violations of the crates below.
#![tactic(auto)]

mod reading;
mod text_error;
mod text_refusal;

pub use os_lexer::TEXT_LIMIT;
pub use reading::{one_answer, read_program};
pub use text_error::TextError;
pub use text_refusal::TextRefusal;
