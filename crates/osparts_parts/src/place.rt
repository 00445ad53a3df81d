/// Where a part stands among the parts of its input.
#[derive(Clone, Copy, Debug, PartialEq, Eq)]
pub enum PartPlace {
    /// It is the first one.
    First,
    /// Others come before it.
    Later,
}
