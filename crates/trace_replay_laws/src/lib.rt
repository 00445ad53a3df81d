//! Replaying what workers ran: definitions and laws.
//!
//! Workers of a run each leave a list of the frames that they ran, in order. Put together such lists say in which orders the
//! frames can have run: those that keep each list's order, and in which each frame is enabled when its turn comes. `specs/`
//! says when an order is lawful (`Orders`), what an order of lists is (`Lists`), and what is answered about lists
//! (`Answers`): the first number that no frame has, the first that stands there twice, where all lists get stuck, a frame
//! that could still run behind them, or else that they are whole. `laws` say that it doesn't matter in which order heads of
//! lists are run, and that only one answer is right. Nothing runs here.
#![tactic(auto)]

pub mod laws;
mod replayed;

pub use replayed::Replayed;
