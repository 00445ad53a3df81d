//! Where the portions of a run begin.

use crate::pace::{Pace, RUNNING};
use flow_core_laws::ACTIVATIONS_LIMIT;
use stream_match::Layout;

/// How many portions a run is given out in at most: a portion costs its thread the creation of all activations before it.
const MOST_PORTIONS: u32 = 8;

/// How many activations a portion runs beyond where the next one is to begin: that one may begin a few later, where its first ones need what those
/// just before them wrote.
const OVERLAP: u32 = 64;

/// What it takes to create an activation and to lay it out, in steps of the machine of a body.
const CREATING: u64 = 110;

/// What it takes to create an activation and to pass it without running it, in the same steps.
const PASSING: u64 = 56;

/// What it takes to put what an activation of a portion came to behind the portions before it, for each of its cells, in the same steps.
const JOINING: u64 = 5;

/// How many parts make one: fractions and weights are counted in these parts.
const ONE: u64 = 1_024;

/// Where the portions of a run begin, such that each ends at about the time when those before it are joined: the worker of the first one has the
/// control program create all activations and lays them out, and that of each other one passes those before its own.
#[derive(Clone, Copy)]
pub(crate) struct Borders {
    /// The number of the first activation.
    first: u32,
    /// About how many activations come from that one on.
    all: u64,
    /// How much of the time of running an activation it takes to pass one, in parts of `ONE`, less what it takes to join one: a worker may run its own
    /// while the portions before it are joined.
    passing: u64,
    /// How many activations run in the time that it takes to create all of them.
    creating: u64,
    /// How many portions there are.
    count: u32,
}

impl Borders {
    /// The borders of portions for `workers` workers behind the activations of a layout, which all ran, at this pace. The first portion begins before
    /// these end, since it may have to begin a few later.
    pub(crate) fn behind(layout: &Layout, pace: Pace, workers: u32) -> Borders {
        let ran = count_of(layout).min(ACTIVATIONS_LIMIT);
        let first = ran.saturating_sub(OVERLAP);
        let all = u64::from(expected(layout).saturating_sub(first));
        let running = pace.steps().saturating_add(RUNNING).max(1);
        let joining = pace.cells().saturating_mul(JOINING);
        Borders {
            first,
            all,
            passing: (ONE * PASSING.saturating_sub(joining) / running).min(ONE),
            creating: all.saturating_mul(CREATING) / running,
            count: workers.clamp(1, MOST_PORTIONS),
        }
    }

    /// The number of the last portion.
    pub(crate) fn last(self) -> u32 {
        self.count.saturating_sub(1)
    }

    /// The number of the first activation of a portion.
    pub(crate) fn begin(self, number: u32) -> u32 {
        let begin = u64::from(self.first).saturating_add(self.before(number));
        begin.min(u64::from(ACTIVATIONS_LIMIT)) as u32
    }

    /// How many activations the portions before one have. Where creating all of them takes the first worker as long as the others run, its own
    /// portion is empty, and the others have all.
    fn before(self, number: u32) -> u64 {
        let longest = self.longest(self.count, self.creating);
        if longest > self.creating {
            return self.in_first(number, longest, self.creating);
        }
        let longest = self.longest(self.last(), 0);
        self.in_first(number.saturating_sub(1), longest, 0)
    }

    /// The time in which `count` workers run all, where the first of them is busy for `busy`; both in activations that one worker runs.
    fn longest(self, count: u32, busy: u64) -> u64 {
        let (time, less) = self.weights(count);
        self.all
            .saturating_mul(ONE)
            .saturating_add(busy.saturating_mul(less))
            / time.max(1)
    }

    /// How many activations the first `count` workers run in a time, where the first of them is busy with other work for a part of it.
    fn in_first(self, count: u32, time: u64, busy: u64) -> u64 {
        let (times, less) = self.weights(count);
        time.saturating_mul(times)
            .saturating_sub(busy.saturating_mul(less))
            / ONE
    }

    /// How many more activations `count` workers run for each unit of time, and how many fewer for each that the first one is busy, in parts of
    /// `ONE`. Each of them passes the activations of those before it, and has less time for its own.
    fn weights(self, count: u32) -> (u64, u64) {
        let mut grows: u64 = 0;
        let mut shrinks: u64 = 0;
        for number in 0..count {
            grows = self.less(grows).saturating_add(ONE);
            shrinks = if number == 0 { ONE } else { self.less(shrinks) };
        }
        (grows, shrinks)
    }

    /// A weight less what it takes to pass as many activations.
    fn less(self, weight: u64) -> u64 {
        weight.saturating_mul(ONE.saturating_sub(self.passing)) / ONE
    }

    /// The number of the activation before which a portion ends.
    pub(crate) fn end(self, number: u32) -> u32 {
        if number >= self.last() {
            return ACTIVATIONS_LIMIT;
        }
        self.begin(number + 1).saturating_add(OVERLAP)
    }
}

/// How many activations a layout has.
fn count_of(layout: &Layout) -> u32 {
    let count = layout.starts.len().saturating_sub(1) as u64;
    count.min(u64::from(u32::MAX)) as u32
}

/// About how many activations come in all, if each of the others reads as much of the input as those of a layout do on the average.
fn expected(layout: &Layout) -> u32 {
    let read = layout.cursors.reads.as_slice().first();
    match read {
        Some(read) if *read > 0 => {
            let whole = u64::from(count_of(layout)).saturating_mul(u64::from(layout.input_len));
            (whole / *read).min(u64::from(ACTIVATIONS_LIMIT)) as u32
        }
        _ => ACTIVATIONS_LIMIT,
    }
}
