/// The value of a constant expression.
#[derive(Clone, Copy)]
pub(crate) enum Amount {
    Number(u32),
    /// It is negative.
    BelowZero,
}

/// What brackets behind the name of a window say.
#[derive(Clone, Copy)]
pub(crate) enum Bracket {
    /// Its size, where it is declared.
    Size,
    /// The burst of an output item.
    Burst,
}

/// A constant in brackets behind the name of a window, by the place of that name among the tokens.
#[derive(Clone, Copy)]
pub(crate) struct Extent {
    pub(crate) place: u32,
    pub(crate) bracket: Bracket,
    pub(crate) amount: Amount,
}
