/// What is said of a file, from the best to the worst. The status of the program is that of the worst.
#[derive(Clone, Copy, PartialEq, Eq, PartialOrd, Ord)]
pub(crate) enum Judged {
    Accepted,
    Refused,
    Unjudged,
}

impl Judged {
    /// 0, 1 or 2, in the order of the variants.
    pub(crate) fn status(self) -> u8 {
        match self {
            Judged::Accepted => 0,
            Judged::Refused => 1,
            Judged::Unjudged => 2,
        }
    }
}
