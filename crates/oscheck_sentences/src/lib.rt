//! What is told of a refused text, as sentences for who wrote it.
//!
//! `Word` is a word of a sentence about tokens. `of_rule` has what each rule says to the writer, with the name that it speaks of, and
//! `of_fault` what is said of bytes that begin no token. `missing` knows what C has and this language hasn't: where such a word or mark
//! stands at the place at which tokens stop being the front of any program, it says so, and what to write. It looks at tokens
//! alone: no grammar stands here, and a sentence is said only of tokens that are refused.
#![tactic(auto)]

mod at;
mod c_words;
mod clause_words;
mod context;
mod library;
mod name_uses;
mod numbers;
mod sentences;
mod word;
mod words;
mod wrong_kind;
mod wrong_size;

pub use at::At;
pub use c_words::missing;
pub use name_uses::{Use, uses};
pub use sentences::{Sentence, of_fault, of_rule};
pub use word::{Word, word_of, write_choice};
