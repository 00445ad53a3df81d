//! Laws of codes and of the machine, for the proofs of those who make a code or run it. Each is a call that does
//! nothing and ensures its law.

ghost use Rattle.std.specs.Prelude.{◌≡◌};
ghost use Rattle.c_int.specs.Traps.{trap_code};
ghost use Rattle.c_int.specs.declared.trap.Trap.TheVariants.{OutputBurst};
ghost use Rattle.flow_core_laws.specs.Outcome.{last_trap_code};
ghost use Rattle.os_code.specs.ControlExamples.{ControlExamples};
ghost use Rattle.os_code.specs.Examples.{Examples};
ghost use Rattle.os_code.specs.Laws.{HeightsSuffice, TestsSuffice, RunsAreOne, TasksEnd, TaskEndsAreOne};
ghost use Rattle.os_code.specs.Laws.{TrapsHaveCodes, TaskEndsAreProper, MainEnds, MainEndsAreOne, StepsAreSmall, RunsGoOn};
ghost use Rattle.os_code.specs.Laws.{StepsAddUp};
ghost use Rattle.os_code.specs.Refusals.{Refusals};

/// Heights that fit at each instruction show what validity says of all paths.
pub fn heights_suffice()
    ensures { HeightsSuffice }
{}

/// What passes the test of validity, with some heights, is valid.
pub fn tests_suffice()
    ensures { TestsSuffice }
{}

/// From a state there is at most one run.
pub fn runs_are_one()
    ensures { RunsAreOne }
{}

/// The runtime takes the numbers from 1 to a last one for codes of traps, and knows no trap by its name: each trap of the language
/// has such a code, and the last one is that of a burst that isn't the horizon of its output window.
pub fn traps_have_codes()
    ensures each { TrapsHaveCodes }
    ensures last { last_trap_code ≡ trap_code OutputBurst }
{}

/// Each activation that fits a valid code has an end, within `(budget + 1) * (code length + 1)` steps, and only one: it
/// traps with the codes 1 to 5 alone, and done it has the outputs that its claims ask for.
pub fn tasks_end()
    ensures there { TasksEnd }
    ensures one { TaskEndsAreOne }
    ensures proper { TaskEndsAreProper }
{}

/// `main` of a valid code has an end, within `(budget + 1) * (code length + 1)` steps, and only one.
pub fn main_ends()
    ensures there { MainEnds }
    ensures one { MainEndsAreOne }
{}

/// A step writes one slot, or at most as many as the largest unit has.
pub fn steps_are_small()
    ensures { StepsAreSmall }
{}

/// A run can be made in parts.
pub fn runs_go_on()
    ensures runs { RunsGoOn }
    ensures steps { StepsAddUp }
{}

/// Codes written out do what was worked out for them by hand, and validity refuses those that break a sentence of it
/// by one number.
pub fn examples()
    ensures tasks { Examples }
    ensures control { ControlExamples }
    ensures refusals { Refusals }
{}
