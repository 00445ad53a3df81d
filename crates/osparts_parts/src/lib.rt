//! Parts of an input, and what their outputs are joined to.
//!
//! An input without end is run in parts of a fixed size. The bytes before a part may stand in front of it, as its overlap. Of what a
//! part writes the first bytes may be left out, as its skip, and the last ones may be no output but its state, which stands in front of
//! the next part. `Terms` says how long each of these is, and `check` tells the first rule that they break.
//!
//! A `PartBuffer` takes bytes as they come and gives parts: those of all bytes that it took (`parts_of`). A `Joiner` takes the skip and
//! the state off the outputs of parts: what is left is what they are joined to (`joined`). `with_state` puts a state in front of a part.
//! `laws` say that parts past their overlaps are the input, and how long they are.
//!
//! Nothing is run here, read or written. `specs/Parts.antt` says what parts are, `specs/Joined.antt` what outputs are joined to.
#![tactic(auto)]

mod buffer;
mod joiner;
pub mod laws;
mod place;
mod state;
mod summary;
mod terms;

pub use buffer::PartBuffer;
pub use joiner::{JoinError, Joiner, Joint};
pub use place::PartPlace;
pub use state::with_state;
pub use summary::summary_line;
pub use terms::{PART_LIMIT, Terms, TermsFault};
