ghost use Rattle.std.specs.Prelude.{◌≡◌, ◌≤◌, length};
ghost use Rattle.oscheck_places.specs.Lines.{IsColumn};

use crate::lines::column;
use os_lexer::Token;

/// Some bytes of a text that something is told of. They stand in one line, whose number counts from 1.
#[derive(Clone, Copy, Debug, PartialEq, Eq)]
pub struct Spot {
    pub line: u32,
    pub start: usize,
    pub end: usize,
}

impl Spot {
    /// The bytes of a token.
    pub fn of_token(token: Token) -> Spot
        ensures line { result.line ≡ token.line }
        ensures start { result.start ≡ token.start }
        ensures end { result.end ≡ token.end }
    {
        Spot {
            line: token.line,
            start: token.start as usize,
            end: token.end as usize,
        }
    }

    /// The column of its first byte, in bytes from 1 on.
    pub fn column(&self, text: &[u8]) -> usize
        requires { self.now.start ≤ length text.now }
        ensures { IsColumn text.now self.now.start result }
    {
        column(text, self.start)
    }
}
