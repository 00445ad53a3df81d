//! Program texts, and what the language says of them: the way from a text through tokens and trees to the checks.
//!
//! There is nothing here but tests. Each takes a table of whole texts and compares the answer with the one that the
//! rules of the language give, found by hand: the tokens, the tree, what each name means, what each task captures. That
//! texts are refused by their code and line is shown by `tests/rows`, on the built programs.
#![tactic(auto)]

#[cfg(test)]
mod captured;
#[cfg(test)]
mod kernel_texts;
#[cfg(test)]
mod names;
#[cfg(test)]
mod syntax;
#[cfg(test)]
mod tokens;
#[cfg(test)]
mod told;
