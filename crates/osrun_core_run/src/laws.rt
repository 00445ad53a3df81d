//! Laws of programs and of their runs. Each is a call that does nothing and ensures its law.

ghost use Rattle.osrun_core_run.specs.Laws.{BodiesGiveBytes, GivesOnlyBytes, HasOneReplay, IsOfAState, NeverUsableAndRefused};
ghost use Rattle.osrun_core_run.specs.Laws.{OfRuns, TellsAllButDone, WritesAllAtZero};

use crate::body_laws::{filled_bodies_fill, outputs_are_bytes};
use cddf_meaning::laws::turns_never_grow;
use collector::laws::{all_but_done_have_lines, all_is_written, meanings_are_states};
use front_end::one_answer;
use lowering_relation::laws::bodies_fill_their_outputs;
use os_object::laws::one_reading;
use trace_replay_laws::laws as answers;
use trace_replay_text::laws::traces_are_told;

/// No bytes are usable as a file of a job and refused as one.
pub fn never_usable_and_refused()
    ensures { NeverUsableAndRefused }
{
    one_answer();
    one_reading();
    traces_are_told();
}

/// The body of a task that has its inputs writes nothing but bytes to the output.
pub fn bodies_give_bytes()
    ensures { BodiesGiveBytes }
{
    turns_never_grow();
}

/// The output of a run has nothing but bytes.
pub fn runs_give_bytes()
    ensures { OfRuns GivesOnlyBytes }
{
    turns_never_grow();
    outputs_are_bytes();
}

/// Only one thing can come of a program that is run by lists: the same ends or the same line, whatever plan stands for its
/// activations.
pub fn one_replay()
    ensures { HasOneReplay }
{
    answers::one_answer();
}

/// What a run comes to is of one state: the report tells of the elements of which the output is written. So it has a line
/// for each activation that isn't done, and at status 0 as many bytes are written as positions are claimed.
pub fn runs_are_of_states()
    ensures state { OfRuns IsOfAState }
    ensures lines { OfRuns TellsAllButDone }
    ensures all_is_written { OfRuns WritesAllAtZero }
{
    bodies_fill_their_outputs();
    filled_bodies_fill();
    meanings_are_states();
    all_but_done_have_lines();
    all_is_written();
}
