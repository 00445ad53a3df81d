//! Laws of runs in control order.
//!
//! Where all activations so far have ended, the next one can run as soon as what it reads is there: its end, and what it
//! writes, are then those that all of them mean. So a run in control order needs no plan, as long as none waits. The laws
//! say so of one more activation, of the elements that streams hold behind it, and of passing from such a run to epochs and
//! back: both stand at the meaning of the same activations (`flow_core_epochs`). They say it too of activations that run apart
//! from those before them, each on what the others of these wrote, and of putting such a run behind one of those before.
#![tactic(auto)]

pub mod laws;
