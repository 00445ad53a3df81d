/// A name, and whether what it stands for is of the type `unsigned`.
#[derive(Clone, Copy, Debug, PartialEq, Eq)]
pub struct TypedName {
    /// The number that the lexer gave the name's spelling.
    pub id: u32,
    pub unsigned: bool,
}
