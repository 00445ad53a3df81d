//! Replaying what workers ran.
//!
//! `replay` takes the lists of frames that the workers of a run left, each in its order, and runs a plan by them on one
//! thread: the head of a list runs as soon as it misses nothing, whatever list it is of. It answers that the lists are whole,
//! with what the run came to, which is the plan's meaning; or what is wrong with them: a number that no frame has, a frame
//! that stands twice, a head that can't run, or a frame that could run behind all lists. Which answer comes when is a
//! definition (`Answers` of `trace_replay_laws`), which speaks of orders in which the frames can have run. A frame is run by
//! `run_frame` of `flow_core`.
//!
//! `print_trace` and `read_trace` write and read such lists as text (`trace_replay_text`).
//!
//! Each frame is looked at once when it misses nothing any more, and its list then is gone on with: lists that wait aren't
//! looked at meanwhile.
#![tactic(auto)]

mod answering;
mod lists;
mod owners;
mod replaying;

pub use replaying::replay;
pub use trace_replay_laws::Replayed;
pub use trace_replay_text::{TraceError, print_trace, read_trace};
