/// What an accepted program is warned of.
#[derive(Clone, Copy, Debug, PartialEq, Eq)]
pub enum Warning {
    /// A task without clauses.
    BareTask,
    /// A name that is declared, and that nothing uses.
    LoneName,
    /// A stream that no task reads, or that no task writes.
    IdleStream,
    /// A change of a scalar in a task that nothing reads.
    DeadStore,
    /// The burst of an output window that isn't its size.
    WrongBurst,
    /// A window whose size traps.
    WrongSize,
    /// A function that can end without `return`.
    OpenEnd,
    /// An `if`, a `while` or a `for` with an empty body.
    EmptyBody,
    /// A number whose digits are octal.
    Octal,
}
