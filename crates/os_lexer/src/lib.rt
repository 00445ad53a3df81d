//! The tokens of a program text.
//!
//! `lex` takes the bytes of a text and gives its tokens: what each is, its slice of the text and its line. It is
//! the first stop on the way from a text to a run, and what stands above it sees tokens alone.
//!
//! Its promise is the token cover. From its start on the text is cut into lexemes, each the longest form at its
//! point, and the tokens are the lexemes that aren't skipped. A text without a cover has a first fault, with a code
//! and a line; `Fault` is what is wrong there, and has the code. `lex` answers each of the two exactly where it is
//! so, unless memory runs out.
//!
//! `specs/Cover.antt` is where a reader begins: it says what a cover and a first fault are, over the forms of
//! `specs/Forms.antt` and what they do, in `specs/Effects.antt`. `specs/Cut.antt` says the same of a cut of the text,
//! told by the tokens alone. `specs/Laws.antt` has that these are the same, and what follows, and the empty functions
//! of `laws` are its proofs. `specs/Reading.antt` only says what the functions below `lex` give: the classes of bytes, the
//! marks of one byte and the ends of runs, blanks and comments, which who looks for the place of a fault asks too.
#![tactic(auto)]

mod bytes;
mod cover;
mod effect;
mod fault;
mod form;
mod laws;
mod lexemes;
mod lexer;
mod limits;
mod marks;
mod mode;
pub mod names;
mod numbers;
mod scans;
mod spellings;
mod token;
mod words;

pub use bytes::{Class, class_of, is_word_byte};
pub use cover::lex;
pub use fault::{Fault, LexError};
pub use laws::{cover_before_fault, cover_cuts, fixed_names_are_numbered, one_cover};
pub use limits::TEXT_LIMIT;
pub use marks::single_mark;
pub use scans::{blanks_end, comment_end, run_end};
pub use token::{Key, Kind, Punct, Token};
