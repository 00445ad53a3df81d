/// A number that a token is.
#[derive(Clone, Copy)]
pub struct Numeral {
    /// Below 2^31, where it isn't wide.
    pub size: u32,
    /// Whether its type is `unsigned`.
    pub wide: bool,
}
