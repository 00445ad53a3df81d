//! What a body works on, and each step of it that evaluates no part of a tree.
//!
//! `BodyState` keeps the declarations in scope, the elements of items, and what the control program did to streams; it looks
//! each name up among all that are in scope, so it is slow, and for tests. `Stop` is why an evaluation gives nothing.
//! Beside them stand the functions that decide what comes of values that are there already: `names` what a name stands
//! for, `operators` and `links` what an operator gives, `changes` what is stored, `loops` what a loop does behind its
//! body, `sizes` how large an array is, `functions` what a call takes and gives, `streams` what an item or a tick says
//! of a stream, and `ends` what comes of the end of a task's body. `cddf_meaning_plain` walks the trees and calls these.
//!
//! `specs/Stops` has the words for what such functions answer, as the definitions of `cddf_meaning` have it.
#![tactic(auto)]

mod body_state;
pub mod changes;
pub mod ends;
pub mod functions;
pub mod links;
pub mod loops;
pub mod names;
pub mod operators;
pub mod sizes;
mod stop;
pub mod streams;
pub mod typing;

pub use body_state::{BodyState, Streams};
pub use stop::Stop;
