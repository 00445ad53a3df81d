//! Running `main` on the machine of os_code.
//!
//! `run_control` runs `main` to its end and answers what it made: the activations in the order of their creation, and
//! how it ended. Its promise is the machine's meaning, exactly, the two limits of a run included: 65,536 activations,
//! and 4,194,304 positions that their windows cover together. What it made is what the runtime takes: each activation
//! fits the code, and together they are lawful for a layout.
//!
//! A `ControlRun` gives the same activations by stretches, so that others can begin to run while `main` goes on: each
//! call of `advance` appends the next ones, at most as many as it is asked for, and tells when no more come. Budget and
//! limits are those of the whole run, however it is cut; and cutting it costs nothing, since the machine is kept, and
//! nothing is kept of the activations but their number and what the limits and ticks need. Activations that are run no more
//! can be handed back by `reuse`: the next ones are made in their places. `take_out` takes an activation out of any list, to be moved to another.
//!
//! The loop stands in `running`, and in `together` what it does in one turn where several instructions mostly stand together; what
//! it shares with the loop of tasks are the pieces of `task_vm::registers`.
#![tactic(auto)]

mod claims;
mod control;
mod machine;
mod made;
mod numbers;
mod places;
mod running;
mod spare;
mod spawning;
mod stage;
mod stretches;
mod ticked;
mod together;

pub use control::run_control;
pub use places::take_out;
pub use stretches::ControlRun;
