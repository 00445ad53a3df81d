//! Which activations an epoch runs.
//!
//! `ready_frames` takes the positions of all activations so far and the activations that have no end. It leaves out those
//! that get none in this epoch: they read an element that nobody writes yet, or that one writes which waits itself. An
//! activation with an end keeps nobody waiting: what it should have written is there, if only as poison. Each is looked at, and nothing
//! more: what waits is planned in the epoch in which it may run, and before it only where it isn't found to wait.
//!
//! `newest_wait` asks first whether all that the control program has created since the last epoch wait, for one another or for what nobody
//! writes. Then nothing may run, since those before wait as they did, and none of them is looked at again. Activations that wait for one
//! another in a circle are found so too, also where it began a little before that epoch.
//!
//! `ready_since` is told how many activations waited before the epoch. Of those without an end it leaves out at once what it finds that the new
//! ones can't reach, neither by what they write nor through others: activations that wait for one another in a circle too, of which no one
//! alone shows that it waits. The others are judged as `ready_frames` does.
//!
//! The promise of `ready_frames` and `ready_since` is `LeaveOutWaiting` of `flow_core_epochs`, that of `newest_wait` is `WaitFrom`. They may leave in
//! what can't run after all, and say no where all wait: the laws ask only that what is left out waits.
#![tactic(auto)]

mod circles;
mod marking;
mod missing;
mod newest;
mod ready;
mod unreached;
mod waiting;

pub use newest::newest_wait;
pub use ready::{ready_frames, ready_since};
