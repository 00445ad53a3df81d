//! Layouts written out by their claims, with the walks of their activations, and lists that are chains of them or aren't.

ghost use Rattle.std.specs.Prelude.{IfOk};
ghost use Rattle.stream_match_layouts.specs.Layout.{IsLayout};

use flow_core_laws::{Activation, Claim, Ends, TaskEnd};
use lawful_layouts::lawful_layout;
use os_io::{List, Memory};
use std::alloc::Global;
use std::test::Fail;
use stream_match_layouts::Layout;
use wait_certs::{check_chain, walk};

/// A read claim by its stream and its horizon, by which it moves.
macro_rules! reads {
    ($stream:expr, $horizon:expr) => {
        Claim {
            stream: $stream,
            write: false,
            horizon: $horizon,
            burst: $horizon,
            skip: 0,
        }
    };
}

/// A write claim in the same way.
macro_rules! writes {
    ($stream:expr, $horizon:expr) => {
        Claim {
            stream: $stream,
            write: true,
            horizon: $horizon,
            burst: $horizon,
            skip: 0,
        }
    };
}

/// Activations by their claims, and the ends that they come to.
#[derive(Clone, Copy)]
struct Case<'a> {
    streams: u32,
    input_len: u32,
    tasks: &'a [&'a [Claim]],
    ends: &'a [Option<TaskEnd>],
}

impl<'a> Case<'a> {
    fn layout(&self, alloc: Global) -> Result<Layout, Fail>
        ensures { IfOk result IsLayout }
    {
        let activations = activations_of(alloc, self.tasks)?;
        match lawful_layout(alloc, self.streams, self.input_len, activations.as_slice())? {
            Some(layout) => Ok(layout),
            None => Err(Fail::from("the activations aren't lawful")),
        }
    }

    /// Whether an activation has this walk; none where it has an end.
    fn walks(&self, alloc: Global, frame: u32, members: Option<&[u32]>) -> Result<bool, Fail> {
        let layout = self.layout(alloc)?;
        if frame as usize >= layout.frames() {
            return Ok(false);
        }
        let ends = ends_of(alloc, self.ends)?;
        let found = walk(alloc, &layout, &ends, frame)?;
        Ok(is_same(found, members))
    }

    /// Whether a list is told to be a chain.
    fn accepts(&self, alloc: Global, chain: &[u32]) -> Result<bool, Fail> {
        let layout = self.layout(alloc)?;
        let accepted = check_chain(alloc, &layout, chain)?;
        Ok(accepted)
    }
}

/// Whether a walk is the one that was worked out.
fn is_same(found: Option<List<u32>>, members: Option<&[u32]>) -> bool {
    match (found, members) {
        (Some(found), Some(members)) => found.as_slice() == members,
        (None, None) => true,
        _ => false,
    }
}

/// Activations with these claims.
fn activations_of(alloc: Global, tasks: &[&[Claim]]) -> Result<Vec<Activation>, Memory> {
    let mut activations = Vec::new(alloc);
    for task in tasks {
        let mut claims = List::new(alloc);
        for claim in *task {
            claims.push(*claim)?;
        }
        activations.push(Activation {
            site: 0,
            captured: List::new(alloc),
            claims,
        })?;
    }
    Ok(activations)
}

/// These ends, over an output of which nothing is asked.
fn ends_of(alloc: Global, ends: &[Option<TaskEnd>]) -> Result<Ends, Memory> {
    Ok(Ends {
        ends: List::from_slice(alloc, ends)?,
        output: List::new(alloc),
    })
}

/// A task waits for the next one, and that one for it; a third one waits for itself.
const CYCLES: Case<'static> = Case {
    streams: 4,
    input_len: 0,
    tasks: &[
        &[reads!(2, 1), writes!(3, 1)],
        &[reads!(3, 1), writes!(2, 1)],
        &[reads!(2, 1), writes!(2, 1)],
    ],
    ends: &[None, None, None],
};

/// Three tasks wait for one another over three streams.
const RING: Case<'static> = Case {
    streams: 5,
    input_len: 0,
    tasks: &[
        &[reads!(4, 1), writes!(2, 1)],
        &[reads!(2, 1), writes!(3, 1)],
        &[reads!(3, 1), writes!(4, 1)],
    ],
    ends: &[None, None, None],
};

/// The input is too short for the first one, for which the second one waits.
const SHORT: Case<'static> = Case {
    streams: 3,
    input_len: 2,
    tasks: &[
        &[reads!(0, 4), writes!(2, 1)],
        &[reads!(2, 1), writes!(1, 1)],
    ],
    ends: &[None, None],
};

/// As `SHORT`, with enough input, so that both are done.
const LONG: Case<'static> = Case {
    streams: 3,
    input_len: 4,
    tasks: &[
        &[reads!(0, 4), writes!(2, 1)],
        &[reads!(2, 1), writes!(1, 1)],
    ],
    ends: &[Some(TaskEnd::Done), Some(TaskEnd::Done)],
};

/// The first one trapped, the second one is poisoned, and the third one waits for what nobody writes behind it.
const POISONED: Case<'static> = Case {
    streams: 3,
    input_len: 0,
    tasks: &[
        &[writes!(2, 1)],
        &[reads!(2, 1), writes!(2, 1)],
        &[reads!(2, 2), writes!(1, 1)],
    ],
    ends: &[
        Some(TaskEnd::Trapped { code: 2, line: 5 }),
        Some(TaskEnd::Poisoned { root: 0 }),
        None,
    ],
};

static WALKS: [(Case<'static>, u32, Option<&[u32]>); 11] = [
    (CYCLES, 0, Some(&[0, 1])),
    (CYCLES, 1, Some(&[1, 0])),
    (CYCLES, 2, Some(&[2])),
    (RING, 0, Some(&[0, 2, 1])),
    (RING, 1, Some(&[1, 0, 2])),
    (SHORT, 0, Some(&[0])),
    (SHORT, 1, Some(&[1, 0])),
    (LONG, 1, None),
    (POISONED, 0, None),
    (POISONED, 1, None),
    (POISONED, 2, Some(&[2])),
];

static CHAINS: [(Case<'static>, &[u32], bool); 18] = [
    (CYCLES, &[0, 1], true),
    (CYCLES, &[1, 0], true),
    (CYCLES, &[2], true),
    (CYCLES, &[0, 2], false),
    (CYCLES, &[0], false),
    (CYCLES, &[], false),
    (CYCLES, &[3], false),
    (CYCLES, &[2, 3], false),
    (RING, &[0, 2, 1], true),
    (RING, &[0, 1, 2], false),
    (RING, &[0, 2], false),
    (SHORT, &[1, 0], true),
    (SHORT, &[0], true),
    (SHORT, &[1], false),
    (LONG, &[0], false),
    (LONG, &[1, 0], false),
    (POISONED, &[2], true),
    (POISONED, &[2, 1], false),
];

/// Whether each walk is the one of its row.
fn all_walk(alloc: Global, rows: &[(Case<'static>, u32, Option<&[u32]>)]) -> Result<bool, Fail> {
    for (case, frame, members) in rows {
        if !case.walks(alloc, *frame, *members)? {
            return Ok(false);
        }
    }
    Ok(true)
}

/// Whether each list is told to be what its row says.
fn all_check(alloc: Global, rows: &[(Case<'static>, &[u32], bool)]) -> Result<bool, Fail> {
    for (case, chain, accepted) in rows {
        if case.accepts(alloc, *chain)? != *accepted {
            return Ok(false);
        }
    }
    Ok(true)
}

#[test]
fn walks_go_from_the_starved_to_those_they_wait_for(rt: HostRuntime) -> Result<(), Fail> {
    assert!(rt; all_walk(rt.alloc(), &WALKS)?);
    Ok(())
}

#[test]
fn chains_are_told_from_other_lists(rt: HostRuntime) -> Result<(), Fail> {
    assert!(rt; all_check(rt.alloc(), &CHAINS)?);
    Ok(())
}
