use os_ast::{Assign, Step};

/// What a token behind a target makes of it.
#[derive(Clone, Copy)]
pub enum ChangeSign {
    /// An `assign`, which an expression follows.
    Assign(Assign),
    /// A `++` or `--`.
    Step(Step),
    /// No change.
    Other,
}
