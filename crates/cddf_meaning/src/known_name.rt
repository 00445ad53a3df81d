/// A declaration in scope: its name, whether it declares a scalar of the control program, and whether what it declares is of the
/// type `unsigned`.
#[derive(Clone, Copy, Debug, PartialEq, Eq)]
pub struct KnownName {
    /// The number that the lexer gave the name's spelling.
    pub id: u32,
    pub scalar: bool,
    pub unsigned: bool,
}
