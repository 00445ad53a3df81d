//! What is open in the front of a program.

use os_io::Memory;
use os_lexer::{Key, Kind, Punct, Token};
use std::alloc::Global;

/// The front of a program so far, without the items, declarations and statements that are closed in it.
#[derive(Drop)]
struct OpenPart {
    tokens: Vec<Token>,
    /// How many tokens stand before what each open block holds, the outermost block first.
    blocks: Vec<usize>,
    /// How many parentheses are open.
    parens: usize,
    /// Whether the last token ended an item, a declaration or a statement.
    is_ended: bool,
}

impl OpenPart {
    /// Where the open item, declaration or statement begins that stands in no other.
    fn begin(&self) -> usize {
        match self.blocks.last() {
            Some(begin) => *begin,
            None => 0,
        }
    }

    /// Adds the next token. What was ended before it is left out, but where an `else` goes on with it.
    fn add(&mut self, token: Token) -> Result<(), Memory> {
        if self.is_ended && token.kind != Kind::Key(Key::Else) {
            let begin = self.begin();
            self.tokens.truncate(begin);
        }
        self.is_ended = false;
        if self.tokens.push(token).is_err() {
            return Err(Memory);
        }
        self.follow(token.kind)
    }

    /// Keeps what a token opens, closes or ends.
    fn follow(&mut self, kind: Kind) -> Result<(), Memory> {
        match kind {
            Kind::Punct(Punct::OpenParen) => self.parens = self.parens.saturating_add(1),
            Kind::Punct(Punct::CloseParen) => self.parens = self.parens.saturating_sub(1),
            Kind::Punct(Punct::OpenBrace) => return self.enter(),
            Kind::Punct(Punct::CloseBrace) => {
                let _begin = self.blocks.pop();
                self.is_ended = true;
            }
            // Two of them stand in the head of a `for`.
            Kind::Punct(Punct::Semicolon) => self.is_ended = self.parens == 0,
            _ => {}
        }
        Ok(())
    }

    /// Enters a block.
    fn enter(&mut self) -> Result<(), Memory> {
        match self.blocks.push(self.tokens.len()) {
            Ok(()) => Ok(()),
            Err(_) => Err(Memory),
        }
    }
}

/// The front of a program without what is closed in it. It is the front of a program too, and goes on by the same tokens;
/// nothing is promised of that.
pub(crate) fn open_part(alloc: Global, front: &[Token]) -> Result<Vec<Token>, Memory> {
    let mut part = OpenPart {
        tokens: Vec::new(alloc),
        blocks: Vec::new(alloc),
        parens: 0,
        is_ended: false,
    };
    for token in front {
        part.add(*token)?;
    }
    Ok(part.tokens)
}
