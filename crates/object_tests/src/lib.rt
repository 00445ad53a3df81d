//! Objects: which bytes are read as a code, and which are refused as what.
//!
//! There is nothing here but tests. The objects were written out by hand from the format, and whether they are valid was
//! worked out from its sentences.
#![tactic(auto)]

#[cfg(test)]
mod answers;
#[cfg(test)]
mod drawn;
#[cfg(test)]
mod format;
#[cfg(test)]
mod validity;
