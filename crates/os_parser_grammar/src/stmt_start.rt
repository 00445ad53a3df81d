use os_ast::Step;

/// How a statement begins.
#[derive(Clone, Copy)]
pub enum StmtStart {
    /// The statement is empty.
    Semicolon,
    /// An opening brace, of a block.
    Brace,
    /// A name, with its number.
    Name(u32),
    /// A `++` or `--` before its target.
    Step(Step),
    /// The keyword `if`, of a branch.
    If,
    /// The keyword `while`, of a loop with a test alone.
    While,
    /// The keyword `for`, of a loop with a head.
    For,
    /// The keyword `break`, which leaves a loop.
    Break,
    /// The keyword `continue`, which ends one pass of a loop.
    Continue,
    /// The keyword `return`, which leaves a function or `main`.
    Return,
    /// The start of a pragma, which takes its whole line.
    Pragma,
    /// No statement begins so.
    Other,
}
