use crate::token::Punct;

/// What may stand at a point of a text: the longest one that does is the next lexeme of the text.
#[derive(Clone, Copy)]
pub(crate) enum Form {
    /// One byte of white space.
    Space,
    /// A backslash and the line feed behind it.
    JoinedLine,
    LineComment,
    BlockComment,
    /// A `/*` without `*/`.
    OpenComment,
    IncludeLine,
    /// From `#` to the end of the word `pragma`.
    PragmaStart,
    /// From `#` to the end of any other word.
    OtherDirective,
    Word,
    /// A run of letters, digits and `_` that begins with a digit.
    Number,
    Mark(Punct),
}

/// A form and how many bytes it takes.
#[derive(Clone, Copy)]
pub(crate) struct Lexeme {
    pub form: Form,
    pub length: usize,
}
