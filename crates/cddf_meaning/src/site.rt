use os_io::List;

/// A task of the control program, as a pragma finds it.
#[derive(Debug, Drop)]
pub struct Site {
    /// The place of its PragmaStart among the tokens.
    pub place: u32,
    /// The names of the scalars that it captures, in the order of their declarations.
    pub captured: List<u32>,
}
