/// An element of a stream that is there.
#[derive(Clone, Copy, Debug, PartialEq, Eq)]
pub enum Elem {
    /// A value that was written.
    Value(i32),
    /// What should have been written and wasn't. It names its root, the activation that trapped or used up
    /// its turns.
    Poison(u32),
}
