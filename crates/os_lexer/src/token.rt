/// A token: what it is, its slice `start..end` of the text in bytes, and the line on which it begins.
/// Lines count from 1.
#[derive(Clone, Copy, Debug, PartialEq, Eq)]
pub struct Token {
    pub kind: Kind,
    pub start: u32,
    pub end: u32,
    pub line: u32,
}

/// What a token is.
///
/// The names `omp`, `task`, `tick`, `taskwait`, `input`, `output`, `firstprivate`, `stream`, `main`,
/// `osin`, `osout` and `osin_len` have the numbers 0 to 11. Every other name has `FIRST_OWN_ID` plus the index of
/// the first token with the same spelling. A number has its value, at most 2,147,483,647; a wide number, whose type is
/// `unsigned`, has one of at most 4,294,967,295.
#[derive(Clone, Copy, Debug, PartialEq, Eq)]
pub enum Kind {
    Name(u32),
    Number(u32),
    Wide(u32),
    Key(Key),
    Punct(Punct),
    PragmaStart,
    PragmaEnd,
}

/// A keyword of C11. `Other` stands for each keyword that no program uses.
#[derive(Clone, Copy, Debug, PartialEq, Eq)]
pub enum Key {
    Int,
    Const,
    Void,
    If,
    Else,
    While,
    For,
    Break,
    Continue,
    Return,
    Attribute,
    Unsigned,
    Other,
}

/// A mark, in the order in which the longest one at a point is sought.
#[derive(Clone, Copy, Debug, PartialEq, Eq)]
pub enum Punct {
    /// `<<=`
    ShiftLeftSet,
    /// `>>=`
    ShiftRightSet,
    /// `+=`
    AddSet,
    /// `-=`
    SubtractSet,
    /// `*=`
    MultiplySet,
    /// `/=`
    DivideSet,
    /// `%=`
    RemainderSet,
    /// `&=`
    BitAndSet,
    /// `^=`
    BitXorSet,
    /// `|=`
    BitOrSet,
    /// `++`
    Up,
    /// `--`
    Down,
    /// `<<`
    ShiftLeft,
    /// `>>`
    ShiftRight,
    /// `<=`
    LessEqual,
    /// `>=`
    GreaterEqual,
    /// `==`
    Equal,
    /// `!=`
    Unequal,
    /// `&&`
    And,
    /// `||`
    Or,
    /// `+`
    Plus,
    /// `-`
    Minus,
    /// `*`
    Star,
    /// `/`
    Slash,
    /// `%`
    Percent,
    /// `<`
    Less,
    /// `>`
    Greater,
    /// `=`
    Set,
    /// `&`
    BitAnd,
    /// `^`
    BitXor,
    /// `|`
    BitOr,
    /// `!`
    Not,
    /// `~`
    Invert,
    /// `?`
    Question,
    /// `:`
    Colon,
    /// `;`
    Semicolon,
    /// `,`
    Comma,
    /// `(`
    OpenParen,
    /// `)`
    CloseParen,
    /// `[`
    OpenBracket,
    /// `]`
    CloseBracket,
    /// `{`
    OpenBrace,
    /// `}`
    CloseBrace,
}
