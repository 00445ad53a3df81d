//! What a program may be warned of that is accepted: that a task has no clauses, that nothing uses a name, that no task reads a
//! stream, or none writes it, that a task changes a scalar and doesn't read it after that, that the burst of an output item or the size of a
//! window traps, that a function can end without `return`, that a body is empty, or that a number is octal.
//!
//! Each warning has a definition and is given exactly where that holds: no warning is a guess. Five are defined over the tokens of the
//! program, in `specs/Warnings.antt`, `specs/Streams.antt`, `specs/EmptyBodies.antt` and `specs/Octal.antt`. An accepted program declares
//! each name that it uses, but for `osin`, `osout` and `osin_len`, so that a name which stands once is declared and not used. It declares
//! streams in the outermost block of `main` alone, each name once there, and only such a name may begin an item: so tasks read or write a
//! stream exactly where its name begins an item of theirs. Four are defined over the tree and what its names mean: changes that nothing
//! reads in `specs/DeadStores.antt`, bursts that trap in `specs/Bursts.antt`, sizes that trap in `specs/WindowSizes.antt`, and functions
//! in `specs/OpenEnds.antt`.
#![tactic(auto)]

mod access;
mod bare;
mod bursts;
mod clause_place;
mod constants;
mod empty;
mod expressions;
mod extent;
mod extents;
mod kinds;
mod last_reads;
mod lone;
mod meanings;
mod octal;
mod open_ends;
mod past;
mod places;
mod statements;
mod stores;
mod streams;
mod window_sizes;

pub use bare::is_bare_task;
pub use bursts::wrong_bursts;
pub use clause_place::ClausePlace;
pub use empty::is_empty_body;
pub use lone::{is_lone_name, repeated_names};
pub use octal::is_octal;
pub use open_ends::open_ended;
pub use places::Places;
pub use stores::dead_stores;
pub use streams::{is_left_out, names_in_clauses};
pub use window_sizes::wrong_sizes;
