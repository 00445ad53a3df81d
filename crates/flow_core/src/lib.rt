//! Running plans of control-driven data flow.
//!
//! What activations, plans and bodies are and what they mean stands in `flow_core_laws`, whose types
//! and laws this crate gives out. `execute_one` runs a plan on one thread. Its promise is the plan's
//! meaning, exactly: the end of each frame and the element of each sink cell, a value or poison, and
//! none where the meaning has none. Other runtimes build on the laws in `laws`, and on `Board`, which has the cells
//! of a run and what each frame misses. Those that run a plan on one thread, but choose the order of the frames
//! themselves or want to see what each frame read and wrote, run each frame by `run_frame`; those whose workers run a plan
//! side by side build on `flow_core_concurrent`. A frame that ends carries something into every cell that it feeds, so a
//! frame waits no longer than for the ends of those that write what it reads; a frame with poison among its cells
//! runs no body.
#![tactic(auto)]

mod board;
mod cells;
mod frame_run;
mod one_thread;
mod waits;

pub use board::Board;
pub use cells::{fit, gather};
pub use flow_core_laws::{
    Activation, Bodies, Claim, Control, ControlEnd, Elem, Ends, FramePlan, Outcome, Piece, Plan,
    TaskEnd, laws,
};
pub use frame_run::{FrameBuffers, run_frame};
pub use one_thread::execute_one;
pub use waits::Waits;
