//! The concurrent core: how seats run a plan side by side, as plain data.
//!
//! A state has a word for each frame, an element or none for each cell, and a view for each seat, which
//! is what one worker did and knows. There are eight kinds of step, each of one seat; whatever the
//! order of the steps of all seats, they keep a state good (`specs/`). A frame gives all its pieces at every
//! end: a STORE gives a cell the meaning's element, which is a value where the frame is Done and else poison, and a
//! FINISH stands behind the last piece. So a frame waits for good only where an element that it reads has no source,
//! or comes from a frame that waits for good too. This crate says what states,
//! steps and good states are, with no thread and no atomic word. The types that a view is made of are
//! Rust types, so that a table of atomic words can keep such views for its seats and can have "the
//! state that words and views show is good" as its rule.
//!
//! `laws` has what a runtime builds on: opening is good, each step keeps a state good, what READ
//! gives is what the meaning has, each frame runs once, the order of the steps doesn't matter, and
//! no frame is left behind. `examples` has three plans step by step, and `wrong_steps` what would
//! break a state.
#![tactic(auto)]

pub mod examples;
mod known;
pub mod laws;
mod view;
mod word;
pub mod wrong_steps;

pub use known::Known;
pub use view::{FrameRun, View};
pub use word::Word;
