//! Laws of every run of a program or of a valid code. Each is a call that does nothing and ensures its law.

ghost use Rattle.wait_certs_runs.specs.Meant.{OfCodeRuns, OfPrograms};
ghost use Rattle.wait_certs_runs.specs.Starving.{AreOfLawful, StarveByChains};
ghost use Rattle.lowering_laws.specs.Laws.{OfAccepted};
ghost use Rattle.wait_certs_runs.specs.Steps.{MainTakesFewSteps, RunsTakeFewSteps};
ghost use Rattle.wait_certs_runs.specs.Types.{BeginsTasksWithInts};

use cddf_meaning_laws::laws::{
    activations_read_ints, bodies_give_ints, captured_stay_ints, tasks_begin_with_ints,
};
use collector::laws::all_but_done_have_lines;
use lowering_laws::laws::activations_are_lawful;
use lowering_relation::laws::bodies_fill_their_outputs;
use os_code::laws::{main_ends, tasks_end};
use wait_certs_laws::laws::{members_starve, one_walk, starved_have_chains, walks_are_chains};

/// The activations of a run are lawful, and what they come to is their meaning, in which each that is done filled its output
/// windows. So it is for a run of a valid code.
pub fn runs_are_of_lawful()
    ensures programs { OfPrograms AreOfLawful }
    ensures codes { OfCodeRuns AreOfLawful }
{
    activations_are_lawful();
    bodies_fill_their_outputs();
    tasks_end();
}

/// Each activation of a run that starves has a chain of no more members than there are activations. It begins with the
/// activation and is its walk, and each walk is such a chain. What `explain` tells of the activation is that walk, with the element that
/// its last member misses, which nobody should write or a member should. In the report it has a line, and the producer
/// that this names starves too. So it is for a run of a valid code.
pub fn runs_starve_by_chains()
    ensures programs { OfPrograms StarveByChains }
    ensures codes { OfCodeRuns StarveByChains }
{
    runs_are_of_lawful();
    all_but_done_have_lines();
    members_starve();
    one_walk();
    starved_have_chains();
    walks_are_chains();
}

/// The machine makes no more steps for a run of a valid code than the budgets allow: `(budget + 1) * (instructions + 1)` for `main`, and
/// as many for the body of each activation, by its own budget.
pub fn runs_take_few_steps()
    ensures of_main { MainTakesFewSteps }
    ensures in_all { RunsTakeFewSteps }
{
    activations_are_lawful();
    main_ends();
    tasks_end();
}

/// The body of each activation of a program begins with `int`s alone, over an input of bytes.
pub fn tasks_of_runs_begin_with_ints()
    ensures { OfAccepted BeginsTasksWithInts }
{
    activations_are_lawful();
    captured_stay_ints();
    tasks_begin_with_ints();
    bodies_give_ints();
    activations_read_ints();
}
