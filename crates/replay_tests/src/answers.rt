//! Lists of frames over plans that were written out by their claims, with what they come to.
ghost use Rattle.flow_core_laws.specs.IsSound.{IsSound};

use crate::plans::{activation, plan_of, replayed};
use flow_core::{Activation, Claim, Elem, Plan};
use os_io::{List, Memory};
use std::alloc::Global;
use std::process::Abort;
use std::test::Fail;
use trace_replay::Replayed;

/// A read claim by its stream and its horizon, by which it moves.
macro_rules! reads {
    ($stream:expr, $horizon:expr) => {
        Claim {
            stream: $stream,
            write: false,
            horizon: $horizon,
            burst: $horizon,
            skip: 0,
        }
    };
}

/// A write claim in the same way.
macro_rules! writes {
    ($stream:expr, $horizon:expr) => {
        Claim {
            stream: $stream,
            write: true,
            horizon: $horizon,
            burst: $horizon,
            skip: 0,
        }
    };
}

/// What lists come to.
enum Told<'a> {
    /// Whole, with this output.
    Whole(&'a [Option<Elem>]),
    Short(u32),
    /// The list, its head, and the cell.
    Stuck(u32, u32, u32),
    Repeat(u32),
    /// The list, and the place in it.
    Stranger(u32, u32),
}

/// Lists over the plan of a list of activations.
struct Case<'a> {
    tasks: &'a [&'a [Claim]],
    lists: &'a [&'a [u32]],
    told: Told<'a>,
}

/// The first reads what the second writes.
const READER_FIRST: &[&[Claim]] = &[&[reads!(2, 1), writes!(1, 1)], &[writes!(2, 1)]];

/// Each but the first reads what the one before wrote.
const CHAIN: &[&[Claim]] = &[
    &[writes!(2, 1)],
    &[reads!(2, 1), writes!(3, 1)],
    &[reads!(3, 1), writes!(4, 1)],
    &[reads!(4, 1), writes!(1, 1)],
];

/// The first reads what nobody writes.
const STARVED: &[&[Claim]] = &[&[reads!(2, 1)], &[writes!(1, 1)]];

/// The first reads what each of the others writes.
const TWO_WRITERS: &[&[Claim]] = &[
    &[reads!(2, 1), reads!(3, 1), writes!(1, 1)],
    &[writes!(2, 1)],
    &[writes!(3, 1)],
];

static CASES: [Case<'static>; 27] = [
    // the head of either list runs once it misses nothing
    Case {
        tasks: READER_FIRST,
        lists: &[&[1, 0]],
        told: Told::Whole(&[Some(Elem::Value(41))]),
    },
    Case {
        tasks: READER_FIRST,
        lists: &[&[0], &[1]],
        told: Told::Whole(&[Some(Elem::Value(41))]),
    },
    Case {
        tasks: READER_FIRST,
        lists: &[&[], &[1, 0], &[]],
        told: Told::Whole(&[Some(Elem::Value(41))]),
    },
    Case {
        tasks: READER_FIRST,
        lists: &[&[0, 1]],
        told: Told::Stuck(0, 0, 0),
    },
    Case {
        tasks: READER_FIRST,
        lists: &[&[0]],
        told: Told::Stuck(0, 0, 0),
    },
    Case {
        tasks: READER_FIRST,
        lists: &[&[1]],
        told: Told::Short(0),
    },
    Case {
        tasks: READER_FIRST,
        lists: &[&[]],
        told: Told::Short(1),
    },
    Case {
        tasks: READER_FIRST,
        lists: &[&[1, 1]],
        told: Told::Repeat(1),
    },
    Case {
        tasks: READER_FIRST,
        lists: &[&[2]],
        told: Told::Stranger(0, 0),
    },
    Case {
        tasks: READER_FIRST,
        lists: &[&[1, 0], &[4294967295]],
        told: Told::Stranger(1, 0),
    },
    // a number without a frame comes before a repeat, and a repeat before a head that is stuck
    Case {
        tasks: READER_FIRST,
        lists: &[&[1, 1], &[0, 2]],
        told: Told::Stranger(1, 1),
    },
    Case {
        tasks: READER_FIRST,
        lists: &[&[0, 0]],
        told: Told::Repeat(0),
    },
    Case {
        tasks: READER_FIRST,
        lists: &[&[1], &[0, 1]],
        told: Told::Repeat(1),
    },
    Case {
        tasks: READER_FIRST,
        lists: &[&[0, 1], &[1, 0]],
        told: Told::Repeat(1),
    },
    // lists are gone on with in turn
    Case {
        tasks: CHAIN,
        lists: &[&[0, 2], &[1, 3]],
        told: Told::Whole(&[Some(Elem::Value(41))]),
    },
    Case {
        tasks: CHAIN,
        lists: &[&[3], &[2], &[1], &[0]],
        told: Told::Whole(&[Some(Elem::Value(41))]),
    },
    Case {
        tasks: CHAIN,
        lists: &[&[2, 0], &[1, 3]],
        told: Told::Stuck(0, 2, 1),
    },
    Case {
        tasks: CHAIN,
        lists: &[&[0], &[2, 1], &[3]],
        told: Told::Stuck(1, 2, 1),
    },
    Case {
        tasks: CHAIN,
        lists: &[&[3, 2], &[1], &[0]],
        told: Told::Stuck(0, 3, 2),
    },
    Case {
        tasks: CHAIN,
        lists: &[&[0, 1, 2]],
        told: Told::Short(3),
    },
    Case {
        tasks: CHAIN,
        lists: &[&[], &[0]],
        told: Told::Short(1),
    },
    // what can't run isn't missed, and can't be run
    Case {
        tasks: STARVED,
        lists: &[&[1]],
        told: Told::Whole(&[Some(Elem::Value(41))]),
    },
    Case {
        tasks: STARVED,
        lists: &[&[1], &[0]],
        told: Told::Stuck(1, 0, 0),
    },
    // the first cell that holds nothing
    Case {
        tasks: TWO_WRITERS,
        lists: &[&[1], &[0, 2]],
        told: Told::Stuck(1, 0, 1),
    },
    Case {
        tasks: TWO_WRITERS,
        lists: &[&[2], &[0, 1]],
        told: Told::Stuck(1, 0, 0),
    },
    Case {
        tasks: TWO_WRITERS,
        lists: &[&[0]],
        told: Told::Stuck(0, 0, 0),
    },
    // no activation at all
    Case {
        tasks: &[],
        lists: &[&[]],
        told: Told::Whole(&[]),
    },
];

/// The second traps, and poisons what the third reads.
static FAILS: Case<'static> = Case {
    tasks: &[
        &[writes!(2, 1)],
        &[reads!(2, 1), writes!(3, 1)],
        &[reads!(3, 1), writes!(1, 1)],
    ],
    lists: &[&[0, 1, 2]],
    told: Told::Whole(&[Some(Elem::Poison(1))]),
};

#[test]
fn tells_what_lists_come_to(rt: HostRuntime) -> Result<(), Fail> {
    all_come_to(&rt, &CASES)
}

#[test]
fn replays_frames_that_fail(rt: HostRuntime) -> Result<(), Fail> {
    comes_to(&rt, &FAILS, true)
}

/// Whether the lists of each case come to what was worked out.
fn all_come_to(rt: &(impl AllocGlobal + Abort), cases: &[Case<'_>]) -> Result<(), Fail> {
    for case in cases {
        comes_to(rt, case, false)?;
    }
    Ok(())
}

/// Whether lists come to what was worked out.
fn comes_to(rt: &(impl AllocGlobal + Abort), case: &Case<'_>, some_fail: bool) -> Result<(), Fail> {
    let activations = activations_of(rt.alloc(), case.tasks)?;
    let plan = plan_of(rt.alloc(), activations)?;
    assert!(rt; come_to(rt.alloc(), &plan, case.lists, some_fail, &case.told)?);
    Ok(())
}

/// Whether lists come to this over a plan.
fn come_to(
    alloc: Global,
    plan: &Plan,
    lists: &[&[u32]],
    some_fail: bool,
    told: &Told<'_>,
) -> Result<bool, Memory>
    requires { IsSound plan.now }
{
    let lists = lists_of(alloc, lists)?;
    match replayed(alloc, plan, lists.as_slice(), some_fail)? {
        Some(answer) => Ok(is_told(&answer, told)),
        None => Ok(false),
    }
}

/// Activations with these claims.
fn activations_of(alloc: Global, tasks: &[&[Claim]]) -> Result<Vec<Activation>, Memory> {
    let mut activations = Vec::new(alloc);
    for task in tasks {
        activations.push(activation(alloc, *task)?)?;
    }
    Ok(activations)
}

/// Lists of these numbers.
fn lists_of(alloc: Global, lists: &[&[u32]]) -> Result<Vec<List<u32>>, Memory> {
    let mut all = Vec::new(alloc);
    for list in lists {
        all.push(List::from_slice(alloc, *list)?)?;
    }
    Ok(all)
}

/// Whether an answer is the one that was worked out.
fn is_told(answer: &Replayed, told: &Told<'_>) -> bool {
    match (answer, told) {
        (Replayed::Whole(ends), Told::Whole(output)) => ends.output.as_slice() == *output,
        (Replayed::Short { frame }, Told::Short(f)) => *frame == *f,
        (Replayed::Stuck { list, frame, cell }, Told::Stuck(l, f, c)) => {
            *list == *l && *frame == *f && *cell == *c
        }
        (Replayed::Repeat { frame }, Told::Repeat(f)) => *frame == *f,
        (Replayed::Stranger { list, place }, Told::Stranger(l, p)) => *list == *l && *place == *p,
        _ => false,
    }
}
