//! What is drafted for each part of a program, and that it stands for that part.
//!
//! A `Draft` grows instruction by instruction; its jumps name labels, and each label gets its place when the draft comes
//! there, which `resolve` puts in at last. `Units` is a code while it is made: the draft, and the units and sites so far.
//! `Told` finds what a name means and whether that is `unsigned`; for each meaning there are instructions, for an operator the one
//! that the types of its operands choose, for a body the slots that it takes, and for a task the items of its site. What is
//! drafted for a part is a function of the tree, of what its names mean and of the draft before (`specs/Emission`).
//! `visit_items` is the one walk over the items of a task's clauses, which the site and the code of the pragma are made by.
//!
//! `laws` has what comes of it: a code which such a draft becomes stands for the part, by the relation of `lowering_relation`; its
//! tasks are spawned one by one; and there are at most 8 instructions a token. The walks over the trees that make such
//! drafts are in `lowering_expressions` and `lowering`.
#![tactic(auto)]

mod clause_items;
mod draft;
mod exits;
mod labels;
pub mod laws;
mod names;
mod operators;
mod sites;
mod slots;
mod told;
mod units;

pub use clause_items::{ItemVisitor, visit_items};
pub use draft::{Draft, Label};
pub use exits::Exits;
pub use labels::resolve;
pub use names::{
    bursting, calling, checking_at, count_of, emit_aiming, emit_element, emit_reading, first_of,
    reading_at, storing, storing_at,
};
pub use operators::{emit_operation, literal};
pub use sites::{captured_at, site_items};
pub use slots::{stmt_slots, stmts_slots};
pub use told::Told;
pub use units::Units;
