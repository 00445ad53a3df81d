//! Plans: where the elements come from that activations read, worked out before these run.
//!
//! A layout (`stream_match_layouts`) has the positions of all claims. `build` works out the plan of the whole
//! run over an input: each frame's cells, and pieces that carry output elements into them, each as long as it
//! can be. `build_epoch` does so for some of the activations, where elements of others are kept, and tells
//! the place of each element that leaves; `build_ready` does so where some that read them are left out, and tells by stretches what
//! leaves; `read_cursors` has the positions from which on elements may still be read.
//!
//! Its promise is the meaning of the activations in `flow_core_laws`, and that of epochs in `flow_core_epochs`:
//! the plan is sound and stands for the activations and the input. `epoch_laws` has these laws for the plans of
//! epochs and for that of a whole run.
#![tactic(auto)]

mod cursors;
mod epoch;
mod epoch_frames;
pub mod epoch_laws;
mod filling;
mod frames;
mod gather;
mod kept;
mod look_up;
mod nearby;
mod numbers;
mod pieces;
mod places;
mod plan;
mod reaching;
mod stretch;
mod woven;

pub use cursors::read_cursors;
pub use epoch::{EpochPlan, ReadyPlan, build_epoch, build_ready};
pub use flow_core_laws::Place;
pub use kept::Kept;
pub use plan::build;
pub use stream_match_layouts::{Layout, Span, laws};
pub use stretch::Stretch;
