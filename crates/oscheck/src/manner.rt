ghost use Rattle.std.specs.Prelude.{◌≡◌};
ghost use Rattle.oscheck.specs.Reports.{more_of, most_of};

/// How many errors of a file are told, and how many warnings.
#[derive(Clone, Copy, PartialEq, Eq)]
pub(crate) enum Extent {
    First,
    /// Twenty at most, and how many more there are.
    Some,
    All,
}

impl Extent {
    /// How many are told at most.
    pub(crate) fn most(self) -> usize
        ensures { result ≡ most_of self }
    {
        match self {
            Extent::First => 1,
            Extent::Some => 20,
            Extent::All => usize::MAX,
        }
    }

    /// How many of `count` errors or warnings are not told; 0 for `First`, where this isn't said.
    pub(crate) fn more(self, count: usize) -> usize
        ensures { result ≡ more_of self count }
    {
        match self {
            Extent::First => 0,
            Extent::Some | Extent::All => count.saturating_sub(self.most()),
        }
    }
}

/// Whether a program with warnings is accepted.
#[derive(Clone, Copy, PartialEq, Eq)]
pub(crate) enum Strictness {
    Lenient,
    Strict,
}

/// How files are judged.
#[derive(Clone, Copy)]
pub(crate) struct Manner {
    pub(crate) extent: Extent,
    pub(crate) strictness: Strictness,
}
