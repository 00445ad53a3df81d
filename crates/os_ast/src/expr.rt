use os_io::List;

/// Where a token stands: its place in the list of tokens, counted from 0, and its line, counted from 1.
#[derive(Clone, Copy, Debug, PartialEq, Eq)]
pub struct Mark {
    pub place: u32,
    pub line: u32,
}

/// A name with the number that the lexer gave its spelling.
#[derive(Clone, Copy, Debug, PartialEq, Eq)]
pub struct Name {
    pub id: u32,
    pub mark: Mark,
}

/// The levels of chains, from the one that binds least.
#[derive(Clone, Copy, Debug, PartialEq, Eq)]
pub enum Level {
    Or,
    And,
    BitOr,
    BitXor,
    BitAnd,
    Equal,
    Order,
    Shift,
    Sum,
    Product,
}

/// The operators with one operand: `-` `+` `!` `~`.
#[derive(Clone, Copy, Debug, PartialEq, Eq)]
pub enum Unary {
    Minus,
    Plus,
    Not,
    Invert,
}

/// The operators with two operands: `||` `&&` `|` `^` `&` `==` `!=` `<` `<=` `>` `>=` `<<` `>>` `+` `-`
/// `*` `/` `%`.
#[derive(Clone, Copy, Debug, PartialEq, Eq)]
pub enum Binary {
    Or,
    And,
    BitOr,
    BitXor,
    BitAnd,
    Equal,
    Unequal,
    Less,
    LessEqual,
    Greater,
    GreaterEqual,
    ShiftLeft,
    ShiftRight,
    Add,
    Subtract,
    Multiply,
    Divide,
    Remainder,
}

/// An expression. Parentheses are nodes.
#[cycle(expr)]
#[derive(Drop)]
pub enum Expr {
    /// An `int` of at most 2,147,483,647.
    Number(u32),
    /// A number of the type `unsigned`.
    Wide(u32),
    Place(Target),
    Call(Call),
    Paren(Box<Expr>),
    /// The mark is the operator's.
    Unary(Unary, Mark, Box<Expr>),
    /// A first operand and at least one link, with operators of one level.
    Chain(Level, Box<Expr>, List<Link>),
    /// `condition ? first : second`
    Choice(Box<Expr>, Box<Expr>, Box<Expr>),
}

/// A variable, or an element of an array, a window or a stream.
#[cycle(expr)]
#[derive(Drop)]
pub struct Target {
    pub name: Name,
    pub index: Option<Box<Index>>,
}

/// An index or a size. The mark is its `[`.
#[cycle(expr)]
#[derive(Drop)]
pub struct Index {
    pub mark: Mark,
    pub value: Expr,
}

#[cycle(expr)]
#[derive(Drop)]
pub struct Call {
    pub name: Name,
    pub args: List<Expr>,
}

/// An operator of a chain and the operand to its right. The mark is the operator's.
#[cycle(expr)]
#[derive(Drop)]
pub struct Link {
    pub op: Binary,
    pub mark: Mark,
    pub right: Expr,
}
