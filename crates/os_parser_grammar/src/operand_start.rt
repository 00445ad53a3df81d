use os_ast::Unary;

/// How an operand begins.
#[derive(Clone, Copy)]
pub enum OperandStart {
    /// A number below 2^31.
    Number(u32),
    /// A number of the type `unsigned`.
    Wide(u32),
    /// A name, with its number.
    Name(u32),
    /// An opening parenthesis.
    Paren,
    /// An operator with one operand.
    Sign(Unary),
    /// No operand begins so.
    Other,
}
