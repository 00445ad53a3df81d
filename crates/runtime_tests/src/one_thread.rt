//! A plan that was written by hand, run on one thread.

ghost use Rattle.std.specs.Prelude.{◌≡◌, ◌+◌, ◌<◌, ◌==◌, [], ◌∷◌, ℕ, pos, false, IsTrue, ⊤};
ghost use Rattle.std.specs.Prelude.{if◌then◌else◌, length, slice_index_or};
ghost use Rattle.flow_core_laws.specs.declared.task_end.TaskEnd.TheVariants.{Done};
ghost use Rattle.flow_core_laws.specs.Outcome.{outcome_of};

use crate::literals::{frame, piece, poison, value};
use crate::plans::plan_of;
use flow_core::{Bodies, Elem, Ends, TaskEnd, execute_one};
use os_io::Memory;
use std::alloc::Global;
use std::process::Abort;
use std::test::Fail;

/// What a body does: its end, and its outputs, which are its inputs or 41 alone.
#[derive(Clone, Copy)]
struct Rule {
    end: TaskEnd,
    copies: bool,
}

/// Bodies by a rule for each frame.
#[derive(Drop)]
struct Table<'a> {
    rules: &'a [Rule],
}

impl<'a> Bodies for Table<'a> {
    type Scratch = ();

    ghost outcome = { λ s f inputs.
        let rule = slice_index_or s.rules.now f (record { end = Done; copies = false }) in
        outcome_of rule.end (if rule.copies then inputs else pos 41 ∷ []) };

    ghost takes = { λ s f i o. (f < length s.rules.now)
        × IsTrue (if (slice_index_or s.rules.now f (record { end = Done; copies = false })).copies then i == o else o == 1) };

    ghost fits = { λ s t. ⊤ };

    fn scratch(&self, _alloc: Global) -> Result<(), Memory> {
        Ok(())
    }

    fn run(&self, frame: u32, inputs: &[i32], outputs: &mut [i32], _scratch: &mut ()) -> TaskEnd {
        let rule = self.rules[frame as usize];
        if rule.copies {
            outputs.copy_from_slice(inputs);
        } else {
            outputs[0] = 41;
        }
        rule.end
    }
}

const COPY: Rule = Rule {
    end: TaskEnd::Done,
    copies: true,
};

const GIVE: Rule = Rule {
    end: TaskEnd::Done,
    copies: false,
};

const TRAP: Rule = Rule {
    end: TaskEnd::Trapped { code: 2, line: 6 },
    copies: true,
};

const SPIN: Rule = Rule {
    end: TaskEnd::OverBudget,
    copies: true,
};

const DONE: Option<TaskEnd> = Some(TaskEnd::Done);

/// How the frames end.
static ENDS: [Option<TaskEnd>; 13] = [
    DONE,
    DONE,
    DONE,
    DONE,
    DONE,
    None,
    None,
    None,
    DONE,
    Some(TaskEnd::Trapped { code: 2, line: 6 }),
    Some(TaskEnd::OverBudget),
    Some(TaskEnd::Poisoned { root: 10 }),
    DONE,
];

/// What the sink is given.
static OUTPUT: [Option<Elem>; 11] = [
    value!(3),
    value!(6),
    value!(6),
    value!(9),
    value!(41),
    None,
    value!(50),
    poison!(9),
    poison!(10),
    poison!(10),
    value!(41),
];

/// Frames 0 and 1 have windows over one input that share its middle elements; each copies them to the sink. Frames 2 and 3
/// read what the next one writes, so that frame 4 runs first. Frames 5 and 6 wait for each other, and frame 7 for itself; the
/// sink has a cell that nobody writes. Frames 9 and 10, of which one traps and the other runs over its budget, poison what they
/// should have written, and frame 11 hands the poison on; those beside them, frames 8 and 12, are done.
#[test]
fn runs_frames_copies_what_they_give_and_poisons_what_they_fail_to_give(
    rt: HostRuntime,
) -> Result<(), Fail> {
    let plan = plan_of(
        rt.alloc(),
        &[
            frame!(0, 2, 2, 0, 0, 1),
            frame!(2, 2, 2, 0, 1, 1),
            frame!(4, 1, 1, 1, 2, 1),
            frame!(5, 1, 1, 1, 3, 1),
            frame!(6, 0, 1, 0, 4, 1),
            frame!(6, 1, 1, 1, 5, 1),
            frame!(7, 1, 1, 1, 6, 1),
            frame!(8, 1, 1, 1, 7, 1),
            frame!(9, 1, 1, 0, 8, 1),
            frame!(10, 1, 1, 0, 9, 1),
            frame!(11, 1, 1, 0, 10, 2),
            frame!(12, 1, 1, 1, 12, 1),
            frame!(13, 0, 1, 0, 13, 1),
        ],
        frame!(13, 11, 0, 11, 14, 0),
        &[
            piece!(0, 13, 0, 2, 13),
            piece!(1, 13, 0, 2, 15),
            piece!(2, 13, 0, 1, 17),
            piece!(3, 2, 0, 1, 4),
            piece!(4, 3, 0, 1, 5),
            piece!(5, 6, 0, 1, 7),
            piece!(6, 5, 0, 1, 6),
            piece!(7, 7, 0, 1, 8),
            piece!(8, 13, 0, 1, 19),
            piece!(9, 13, 0, 1, 20),
            piece!(10, 13, 0, 1, 21),
            piece!(10, 11, 0, 1, 12),
            piece!(11, 13, 0, 1, 22),
            piece!(12, 13, 0, 1, 23),
        ],
        &[
            value!(3),
            value!(6),
            value!(6),
            value!(9),
            None,
            None,
            None,
            None,
            None,
            value!(50),
            value!(0),
            value!(7),
            None,
            None,
            None,
            None,
            None,
            None,
            None,
            None,
            None,
            None,
            None,
            None,
        ],
        &[0, 1, 2, 3, 4, 5, 6, 7, 8, 9, 10, 11, 12],
    )?;
    let bodies = Table {
        rules: &[
            COPY, COPY, COPY, COPY, GIVE, COPY, COPY, COPY, COPY, TRAP, SPIN, COPY, GIVE,
        ],
    };
    let ends = execute_one(rt.alloc(), &plan, &bodies)?;
    has_ends(&rt, &ends, &ENDS, &OUTPUT);
    Ok(())
}

/// Asks that a run came to these ends and elements.
fn has_ends(rt: &impl Abort, found: &Ends, ends: &[Option<TaskEnd>], output: &[Option<Elem>]) {
    assert!(rt; found.ends.as_slice() == ends);
    assert!(rt; found.output.as_slice() == output);
}
