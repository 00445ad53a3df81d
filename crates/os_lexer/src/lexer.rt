ghost use Rattle.std.specs.Prelude.{◌≡◌, ◌+◌, ◌^◌, ◌<◌, ◌≤◌, ℕ, Some, List, [], ◌∷◌, ◌++◌, length, drop};
ghost use Rattle.std.specs.Prelude.{IfOk, IfErr, OnOk, count_by, bytes_eq, unwrap_or, ◌&&◌, if◌then◌else◌};
ghost use Rattle.os_lexer.specs.Bytes.{is_line_feed};

use crate::bytes::is_line_feed;
use crate::effect::{Effect, effect_of};
use crate::fault::{Fault, LexError};
use crate::form::{Form, Lexeme};
use crate::lexemes::lexeme_at;
use crate::mode::Mode;
use crate::names::FIRST_OWN_ID;
use crate::spellings::Spellings;
use crate::token::{Kind, Token};
use crate::words::fixed_number;
use std::alloc::Global;

/// A point in a text, with what is known of the bytes before it.
#[derive(Drop)]
pub(crate) struct Lexer<'a> {
    at: usize,
    line: u32,
    mode: Mode,
    tokens: Vec<Token>,
    spellings: Spellings<'a>,
}

impl<'a> Lexer<'a> {
    ghost use Rattle.os_lexer.specs.Answer.{IsMemory};
    ghost use Rattle.os_lexer.specs.Cover.{text_start, LexemeStep};
    ghost use Rattle.os_lexer.specs.Effects.{effect};
    ghost use Rattle.os_lexer.specs.Forms.{IsLexeme};
    ghost use Rattle.os_lexer.specs.Limits.{text_limit};
    ghost use Rattle.os_lexer.specs.Names.{first_own_id};
    ghost use Rattle.os_lexer.specs.Spellings.{first_of};
    ghost use Rattle.os_lexer.specs.States.{point_of, end_of, is_name, number_by_map, IsState, IsFaultHere, IfWord};

    /// The start of a text.
    pub(crate) fn new(alloc: Global) -> Lexer<'a>
        ensures start { point_of result ≡ text_start }
        ensures state { (text : List ℕ) → length text ≤ text_limit → IsState text result }
    {
        Lexer {
            at: 0,
            line: 1,
            mode: Mode::LineStart,
            tokens: Vec::new(alloc),
            spellings: Spellings::new(alloc),
        }
    }

    /// How many bytes stand before the point.
    pub(crate) fn at(&self) -> usize
        ensures { result ≡ self.now.at }
    {
        self.at
    }

    /// Goes on behind the lexeme at the point.
    pub(crate) fn advance(&mut self, text: &'a [u8]) -> Result<(), LexError>
        requires state { IsState text.now self.old }
        requires inside { self.old.at < length text.now }
        ensures step { OnOk result (LexemeStep text.now (point_of self.old) (point_of self.new)) }
        ensures state { OnOk result (IsState text.now self.new) }
        ensures fault { IfErr result (IsFaultHere text.now (point_of self.old)) }
    {
        match lexeme_at(&text[self.at..]) {
            Some(lexeme) => self.take(text, lexeme),
            None => Err(Fault::BadByte.on_line(self.line)),
        }
    }

    /// Goes on behind a lexeme.
    fn take(&mut self, text: &'a [u8], lexeme: Lexeme) -> Result<(), LexError>
        requires state { IsState text.now self.old }
        requires lexeme { IsLexeme (drop self.old.at text.now) lexeme.form lexeme.length }
        ensures step { OnOk result (LexemeStep text.now (point_of self.old) (point_of self.new)) }
        ensures state { OnOk result (IsState text.now self.new) }
        ensures fault { IfErr result (IsFaultHere text.now (point_of self.old)) }
    {
        let slice = &text[self.at..self.at + lexeme.length];
        match self.effect(lexeme.form, slice) {
            Effect::Skip(mode) => {
                self.pass(slice, mode);
                Ok(())
            }
            Effect::Give(kind, mode) => {
                self.give(slice, kind)?;
                self.pass(slice, mode);
                Ok(())
            }
            Effect::Fail(fault) => Err(fault.on_line(self.line)),
        }
    }

    /// What the slice of a form does at the point.
    fn effect(&self, form: Form, slice: &[u8]) -> Effect
        requires { first_own_id + unwrap_or (first_of self.now.spellings slice.now) (length self.now.tokens.items) < 2 ^ 32 }
        ensures { result ≡ effect self.now.mode
            (number_by_map self.now.spellings (length self.now.tokens.items) slice.now) form slice.now }
    {
        effect_of(self.mode, self.number_of(form, slice), form, slice)
    }

    /// The number that the slice of a form has, if it is a name.
    fn number_of(&self, form: Form, slice: &[u8]) -> u32
        requires { first_own_id + unwrap_or (first_of self.now.spellings slice.now) (length self.now.tokens.items) < 2 ^ 32 }
        ensures { IfWord form
            (result ≡ number_by_map self.now.spellings (length self.now.tokens.items) slice.now) }
    {
        match form {
            Form::Word => self.name_number(slice),
            _ => 0,
        }
    }

    /// The number of a name.
    fn name_number(&self, name: &[u8]) -> u32
        requires { first_own_id + unwrap_or (first_of self.now.spellings name.now) (length self.now.tokens.items) < 2 ^ 32 }
        ensures { result ≡ number_by_map self.now.spellings (length self.now.tokens.items) name.now }
    {
        match fixed_number(name) {
            Some(number) => number as u32,
            None => FIRST_OWN_ID + self.first_index(name),
        }
    }

    /// The index of the first name with this spelling, where the token to come is one with it.
    fn first_index(&self, name: &[u8]) -> u32
        requires { unwrap_or (first_of self.now.spellings name.now) (length self.now.tokens.items) < 2 ^ 32 }
        ensures { result ≡ unwrap_or (first_of self.now.spellings name.now) (length self.now.tokens.items) }
    {
        match self.spellings.first_of(name) {
            Some(index) => index,
            None => self.tokens.len() as u32,
        }
    }

    /// Adds the token that begins at the point.
    fn give(&mut self, slice: &'a [u8], kind: Kind) -> Result<(), LexError>
        requires short { self.old.at + length slice.now < 2 ^ 32 }
        requires few { length self.old.tokens.items < 2 ^ 32 }
        ensures given { OnOk result (self.new.tokens.items ≡ self.old.tokens.items ++ record {
          kind = kind;
          start = self.old.at;
          end = self.old.at + length slice.now;
          line = self.old.line;
        } ∷ []) }
        ensures noted { OnOk result ((name : List ℕ) → first_of self.new.spellings name
            ≡ (if is_name kind && bytes_eq slice.now name
            then Some (unwrap_or (first_of self.old.spellings name) (length self.old.tokens.items))
            else first_of self.old.spellings name)) }
        ensures at { self.new.at ≡ self.old.at }
        ensures line { self.new.line ≡ self.old.line }
        ensures memory { IfErr result IsMemory }
    {
        let index = self.tokens.len() as u32;
        let start = self.at as u32;
        let end = (self.at + slice.len()) as u32;
        let line = self.line;
        self.spellings.note_token(kind, slice, index)?;
        self.tokens.push(Token {
            kind,
            start,
            end,
            line,
        })?;
        Ok(())
    }

    /// Leaves the slice at the point behind.
    fn pass(&mut self, slice: &[u8], mode: Mode)
        requires short { self.old.at + length slice.now < 2 ^ 32 }
        requires lines { self.old.line + count_by is_line_feed slice.now < 2 ^ 32 }
        ensures at { self.new.at ≡ self.old.at + length slice.now }
        ensures line { self.new.line ≡ self.old.line + count_by is_line_feed slice.now }
        ensures mode { self.new.mode ≡ mode }
        ensures tokens { self.new.tokens ≡ self.old.tokens }
        ensures spellings { self.new.spellings ≡ self.old.spellings }
    {
        self.at += slice.len();
        self.line += line_feeds(slice);
        self.mode = mode;
    }

    /// The tokens of the text that ends at the point.
    pub(crate) fn finish(self) -> Result<Vec<Token>, LexError>
        requires { self.at < 2 ^ 32 }
        ensures tokens { IfOk result (λ tokens. tokens.items ≡ self.entry.tokens.items ++ end_of self.entry) }
        ensures memory { IfErr result IsMemory }
    {
        let Lexer {
            at,
            line,
            mode,
            mut tokens,
            spellings: _,
        } = self;
        let point = at as u32;
        if let Mode::InPragma = mode {
            tokens.push(Token {
                kind: Kind::PragmaEnd,
                start: point,
                end: point,
                line,
            })?;
        }
        Ok(tokens)
    }
}

/// How many line feeds stand in the slice.
fn line_feeds(slice: &[u8]) -> u32
    requires { count_by is_line_feed slice.now < 2 ^ 32 }
    ensures { result ≡ count_by is_line_feed slice.now }
{
    slice.iter().filter(|byte| is_line_feed(**byte)).count() as u32
}
