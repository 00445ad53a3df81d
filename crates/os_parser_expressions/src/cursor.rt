//! A place in a list of tokens.

ghost use Rattle.std.specs.Prelude.{◌≡◌, ◌+◌, ◌≤◌, ◌↔◌, IsTrue, length};
ghost use Rattle.os_ast.specs.Means.{placed_from};
ghost use Rattle.os_lexer.specs.Limits.{text_limit};
ghost use Rattle.os_parser_grammar.specs.Kinds.{same};
ghost use Rattle.os_parser_expressions.specs.Gives.{Gives};
ghost use Rattle.os_parser_grammar.specs.Reading.{Same, kind_at, mark_at, after, begins, expect};

use crate::production_error::ProductionError;
use os_ast::Mark;
use os_lexer::{Kind, Token};
use std::marker::Model;

/// The tokens that are left. Contracts see each with the mark of its place and its line.
#[derive(Drop)]
pub struct Cursor<'a> {
    rest: &'a [Token],
    place: u32,
}

impl<'a> Model for Cursor<'a> {
    ghost use Rattle.std.specs.Prelude.{◌+◌, ◌≤◌, List, length};
    ghost use Rattle.os_ast.specs.Means.{Placed, placed_from};
    ghost use Rattle.os_lexer.specs.Limits.{text_limit};

    ghost Value = { List Placed };

    ghost view = { λ cursor. placed_from cursor.place cursor.rest.now };

    ghost invariant = { λ cursor. cursor.place + length cursor.rest.now ≤ text_limit };
}

fn is_same(kind: Kind, other: Kind) -> bool
    ensures { IsTrue result ↔ kind ≡ other }
{
    kind == other
}

impl<'a> Cursor<'a> {
    /// A cursor before the first of some tokens.
    pub fn new(tokens: &'a [Token]) -> Cursor<'a>
        requires { length tokens.now ≤ text_limit }
        ensures { result ≡ placed_from 0 tokens.now }
    {
        Cursor {
            rest: tokens,
            place: 0,
        }
    }

    /// How many tokens are left.
    #[tactic(auto, using(os_parser_grammar::proofs::Tokens::lengths))]
    pub fn left(&self) -> usize
        ensures { result ≡ length self.now }
    {
        self.rest.len()
    }

    /// What the next token is.
    #[tactic(auto, using(os_parser_grammar::proofs::Tokens::lengths))]
    pub fn kind(&self) -> Option<Kind>
        ensures { result ≡ kind_at self.now }
    {
        let token = self.rest.first()?;
        Some(token.kind)
    }

    /// The mark of the next token.
    pub fn mark(&self) -> Mark
        ensures { result ≡ mark_at self.now }
    {
        match self.rest.first() {
            Some(token) => Mark {
                place: self.place,
                line: token.line,
            },
            None => Mark { place: 0, line: 0 },
        }
    }

    /// Goes past the next token.
    #[tactic(auto, using(os_parser_grammar::proofs::Tokens::lengths))]
    pub fn advance(&mut self)
        ensures { self.new ≡ after self.old }
    {
        if let [_, rest @ ..] = self.rest {
            self.rest = rest;
            self.place += 1;
        }
    }

    /// Whether the next token is of a kind.
    pub fn is_at(&self, kind: Kind) -> bool
        ensures { result ≡ begins kind self.now }
    {
        match self.kind() {
            Some(next) => is_same(next, kind),
            None => false,
        }
    }

    /// Goes past a token of a kind, where the next one is of that kind.
    #[tactic(auto, using(os_parser_grammar::proofs::Tokens::lengths), unfolding(os_parser_grammar::specs::Reading::expect))]
    pub fn expect(&mut self, kind: Kind) -> Result<Mark, ProductionError>
        ensures gives { Gives Same result self.new (expect kind self.old) }
        ensures within { length self.new ≤ length self.old }
    {
        if !self.is_at(kind) {
            return Err(ProductionError::Syntax);
        }
        let mark = self.mark();
        self.advance();
        Ok(mark)
    }
}
