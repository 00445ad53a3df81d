//! What a program means: its task bodies and its control program.
//!
//! The definitions stand in `specs/`, one notion a file, over the trees without boxes. `Answers` is what an evaluation
//! comes to; `Variables`, `BodyState` and `File` are what names stand for; `ExpressionTypes` are the types of expressions; `Value` and `Run`
//! are big steps of expressions and statements, by name, over the 32 bits of numbers, and `TypedValue` is the value of an
//! expression with its type, of which these are the bits; `Functions` ties the calls to the items before a function. `Streams`
//! and `Claims` are what the control program does with streams. `Body` is the end of an activation for its inputs, with what it
//! writes, and `Control` the activations that the control program creates, and its end.
//!
//! A definition is total over every tree. Where no program that keeps the rules comes, it says something, and a comment
//! says so. `laws` shows that the definitions are the ones that were meant, and `examples` works some out by hand.
//!
//! There is no code here but laws, the types that the definitions name, and `operators`, which tells those of the trees as those on
//! numbers. `cddf_meaning_plain` computes what the definitions say.
#![tactic(auto)]

mod aim;
mod cursor_move;
mod ending;
pub mod examples;
mod flow;
mod known_name;
pub mod laws;
pub mod operators;
mod site;
mod typed_name;
mod variable;

pub use aim::Aim;
pub use cursor_move::Move;
pub use ending::Ending;
pub use flow::Flow;
pub use known_name::KnownName;
pub use site::Site;
pub use typed_name::TypedName;
pub use variable::{Binding, Variable};
