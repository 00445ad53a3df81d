ghost use Rattle.std.specs.Prelude.{◌≤◌};

/// How many new activations an epoch has at most for each worker that it is sized for.
const ACTIVATIONS: u32 = 1024;

/// How many elements the windows of an epoch's new activations may have for each worker: once they have as many, it takes no more activations,
/// since their cells, and what they write, are held at once.
const ELEMENTS: u64 = 16_384;

/// How many they may have where one worker runs the epoch: it starts no thread for it, so that a small epoch costs little.
const ELEMENTS_ALONE: u64 = 8_192;

/// For how many workers an epoch is sized at most: where there are more, they share what `SHARES` workers would have.
const SHARES: u32 = 4;

/// How many activations are created before their elements are counted: so an epoch has one for each of 64 workers.
const COUNTED_AT_ONCE: u32 = 64;

/// How many activations the first epoch has at most where several workers run it.
const FIRST: u32 = 256;

/// How much of what is new an epoch has at most. It has at least one new activation.
#[derive(Clone, Copy, Debug, PartialEq, Eq)]
pub struct EpochSize {
    /// How many new activations it has at most: one at least.
    pub activations: u32,
    /// The epoch takes no more activations once the windows of its new ones have this many elements, or half as many as are kept, where that is more. An
    /// element counts once for each window that has it.
    pub elements: u64,
    /// The elements are counted each time that the control program has created this many activations; 0 stands for 1.
    pub stretch: u32,
    /// How many times as much it may have while many activations wait, since each of them is looked at again in each epoch in which something
    /// runs; 0 stands for 1.
    pub growth: u32,
}

impl EpochSize {
    /// The size of the epochs of a run by `workers` workers: at most 4,096 new activations.
    pub(crate) fn by_workers(workers: u32) -> EpochSize
        requires { 1 ≤ workers }
        ensures { 1 ≤ result.activations }
    {
        let shares = workers.min(SHARES);
        EpochSize {
            activations: shares * ACTIVATIONS,
            elements: elements_for(shares),
            stretch: COUNTED_AT_ONCE,
            growth: SHARES / shares,
        }
    }

    /// The size of the first epoch. By several workers it is small, since nothing tells yet how long bodies are, and so how they are to
    /// be run.
    pub(crate) fn first(self, workers: u32) -> EpochSize
        requires { 1 ≤ self.activations }
        ensures { 1 ≤ result.activations }
    {
        if workers == 1 {
            return self;
        }
        EpochSize {
            activations: self.activations.min(FIRST),
            elements: self.elements.min(ELEMENTS_ALONE),
            ..self
        }
    }

    /// The size of the next epoch, where activations wait and elements are kept: as many times as many new activations as full epochs these would
    /// make, up to `growth`, and at least half as many elements as are kept. For all that wait or are kept are gone over in each epoch.
    pub(crate) fn with_waiting(self, waiting: usize, kept: usize) -> EpochSize
        requires { 1 ≤ self.activations }
        ensures { 1 ≤ result.activations }
    {
        let kept = kept as u64 / 2;
        let times = (waiting as u64 / u64::from(self.activations))
            .max(kept / self.elements.max(1))
            .min(u64::from(self.growth))
            .max(1) as u32;
        EpochSize {
            activations: self.activations.saturating_mul(times).max(self.activations),
            elements: self.elements.saturating_mul(u64::from(times)).max(kept),
            ..self
        }
    }
}

/// How many elements an epoch of `shares` shares may have.
fn elements_for(shares: u32) -> u64 {
    if shares == 1 {
        ELEMENTS_ALONE
    } else {
        u64::from(shares) * ELEMENTS
    }
}
