//! Control-driven data flow, with no word of the language that it serves: what it means.
//!
//! A control program makes a list of activations. Each activation takes stream positions by its
//! claims when it is created, and gets its end once every element of its input windows is there. An
//! activation that traps or uses up its turns writes no value: each element that it should have written is
//! there as poison, with the activation as its root. An activation that reads poison runs no body. It ends
//! poisoned by the least root among its inputs, and hands that root on. Only an activation that waits for what
//! nobody writes, or for itself through others, has no end.
//!
//! This crate says what such a list means (`specs/`): where each claim begins, who produces an element,
//! what one round does, and the meaning, which is reached after as many rounds as there are
//! activations. A plan is the same with the positions worked out: frames with cells, and pieces that
//! carry output elements into them.
//!
//! There are the types that activations, plans and ends are made of, the place of an element, the trait by which a runtime asks
//! for the bodies of frames, and `laws`: what holds of every meaning, for the proofs of whatever runs one.
//! Nothing runs here but what looks up a frame, its number, the end of an activation, the root of an end and an element that it
//! writes, and the lesser of two roots.
#![tactic(auto)]

mod activation;
mod bodies;
mod claim;
mod control;
mod elem;
mod ends;
pub mod laws;
mod least_root;
mod limits;
mod outcome;
mod output;
mod place;
mod plan;
mod task_end;

pub use activation::Activation;
pub use bodies::Bodies;
pub use claim::Claim;
pub use control::{Control, ControlEnd};
pub use elem::Elem;
pub use ends::Ends;
pub use least_root::lesser;
pub use limits::{
    ACTIVATIONS_LIMIT, BUDGET_LIMIT, HORIZON_LIMIT, INPUT_LIMIT, LAST_ACTIVATION, MOVE_LIMIT,
    POSITIONS_LIMIT, WORKERS_LIMIT,
};
pub use outcome::Outcome;
pub use output::output_element;
pub use place::Place;
pub use plan::{FramePlan, Piece, Plan};
pub use task_end::TaskEnd;
