ghost use Rattle.std.specs.Prelude.{◌≤◌, IfSome};

use epoch_run_bodies::COUNTED;
use flow_core_laws::Plan;

/// What a table of atomic words costs an activation, in steps of the machine of a body: bodies that take fewer gain nothing by it.
const TABLE_STEPS: u64 = 1_000;

/// What such a table costs for each cell, in the same steps.
const CELL_STEPS: u64 = 80;

/// What it takes to create an activation and to run it in control order, besides its own steps.
pub(crate) const RUNNING: u64 = 170;

/// How many steps an average body has to take for three workers or more to gain by portioning a run in control order out: one of them creates all
/// activations, and each other one creates those before its own as well.
const PORTION_STEPS: u64 = 20;

/// How many steps it has to take for two workers to gain.
const PORTION_STEPS_OF_TWO: u64 = 90;

/// How many steps it has to take for each of its cells, with `RUNNING` added to them: what a portion wrote is put behind what the others wrote, which
/// takes about as long as writing it did.
const PORTIONED_CELL_STEPS: u64 = 11;

/// The least number of steps for which it pays to run a plan by several workers, whatever a table costs.
const LONG_STEPS: u64 = 4_096;

/// How many steps are worth a thread.
const THREAD_STEPS: u64 = 65_536;

/// How long the bodies of activations are, by those of an epoch that was run, on the average.
#[derive(Clone, Copy, Debug)]
pub(crate) enum Pace {
    /// None was run by several workers yet.
    Unknown,
    /// A body takes about `each` steps, and a plan has about `cells` cells for a frame, those of the output among them.
    Steps { each: u64, cells: u64 },
}

impl Pace {
    /// The pace behind an epoch: that of the frames of its plan, whose bodies took `steps` steps together. Those below `COUNTED` steps aren't
    /// counted, so that all are taken to have as many. Where it has no frames, nothing new is known.
    pub(crate) fn behind(self, plan: &Plan, steps: u64) -> Pace {
        let frames = plan.frames.len();
        let counted = steps.max((frames as u64).saturating_mul(COUNTED));
        self.by(counted, frames, cells_of(plan))
    }

    /// The pace behind `count` more activations like those before them, whose bodies took `steps` steps together.
    pub(crate) fn behind_more(self, steps: u64, count: usize) -> Pace {
        self.by(steps, count, self.cells())
    }

    /// The pace of `count` bodies that took `steps` steps together, of which each has `cells` cells. Where there are none it stays.
    fn by(self, steps: u64, count: usize, cells: u64) -> Pace {
        if count == 0 {
            return self;
        }
        Pace::Steps {
            each: steps / count as u64,
            cells,
        }
    }

    /// The least number of steps for which it pays to run a plan by several workers.
    fn worth(self) -> u64 {
        match self {
            Pace::Steps { cells, .. } => worth_a_table(cells).min(LONG_STEPS),
            Pace::Unknown => TABLE_STEPS,
        }
    }

    /// Whether bodies are known to be so short that several workers gain nothing by a plan.
    pub(crate) fn is_short(self) -> bool {
        match self {
            Pace::Steps { each, .. } => each < self.worth(),
            Pace::Unknown => false,
        }
    }

    /// How many steps they take each, as far as that is known.
    pub(crate) fn steps(self) -> u64 {
        match self {
            Pace::Steps { each, .. } => each,
            Pace::Unknown => 0,
        }
    }

    /// How many cells a plan has for each, as far as that is known.
    pub(crate) fn cells(self) -> u64 {
        match self {
            Pace::Steps { cells, .. } => cells,
            Pace::Unknown => 0,
        }
    }

    /// Whether they are so long that `workers` workers gain by portioning a run out.
    pub(crate) fn is_worth_portions(self, workers: u32) -> bool {
        match self {
            Pace::Steps { each, cells } => {
                each >= worth_portions(workers)
                    && each.saturating_add(RUNNING) >= cells.saturating_mul(PORTIONED_CELL_STEPS)
            }
            Pace::Unknown => false,
        }
    }

    /// Whether they may be so short: they are known to be, or nothing is known of them yet.
    pub(crate) fn may_be_short(self) -> bool {
        match self {
            Pace::Steps { .. } => self.is_short(),
            Pace::Unknown => true,
        }
    }

    /// How many steps the bodies of `activations` activations may take together where these run one after the other: any number by one worker, and by
    /// several what short bodies take.
    pub(crate) fn most_steps(self, workers: u32, activations: u64) -> u64 {
        if workers == 1 {
            return u64::MAX;
        }
        activations.saturating_mul(self.worth())
    }

    /// How many of the workers are to run a plan round by round; none where they are to run it over one table. More than one do so where all
    /// frames are open from the start, and so are one round: each round starts its threads.
    pub(crate) fn rounds_for(self, plan: &Plan, workers: u32) -> Option<u32>
        requires { 1 ≤ workers }
        ensures some { IfSome result (λ some. 1 ≤ some) }
        ensures few { IfSome result (λ some. some ≤ workers) }
    {
        match self {
            Pace::Steps { each, .. } if each < worth_a_table(cells_of(plan)) => {
                Some(threads_for(steps_at_once(plan, each), workers))
            }
            _ => None,
        }
    }
}

/// The least number of steps of an average body for which a table pays, by how many cells it has.
fn worth_a_table(cells: u64) -> u64 {
    cells.saturating_mul(CELL_STEPS).saturating_add(TABLE_STEPS)
}

/// The least number of steps of an average body from which on `workers` workers gain by portioning a run out; one worker never gains.
fn worth_portions(workers: u32) -> u64 {
    match workers {
        0 | 1 => u64::MAX,
        2 => PORTION_STEPS_OF_TWO,
        _ => PORTION_STEPS,
    }
}

/// How many cells a plan has for each frame, on the average.
fn cells_of(plan: &Plan) -> u64 {
    let frames = plan.frames.len() as u64;
    if frames == 0 {
        return 0;
    }
    plan.filled.len() as u64 / frames
}

/// How many workers it pays to use for this many steps: at least one.
fn threads_for(steps: u64, workers: u32) -> u32
    requires { 1 ≤ workers }
    ensures some { 1 ≤ result }
    ensures few { result ≤ workers }
{
    (steps / THREAD_STEPS).clamp(1, u64::from(workers)) as u32
}

/// How many steps the bodies of a plan that is one round take together, where one takes `each`; 0 where some frames wait for others.
fn steps_at_once(plan: &Plan, each: u64) -> u64 {
    if !are_open(plan) {
        return 0;
    }
    (plan.frames.len() as u64).saturating_mul(each)
}

/// Whether no frame waits for another one.
fn are_open(plan: &Plan) -> bool {
    for frame in plan.frames.as_slice() {
        if frame.wait > 0 {
            return false;
        }
    }
    true
}
