ghost use Rattle.std.specs.Prelude.{◌≡◌, ◌≤◌, ◌-◌, ◌↔◌, ◌==◌, IsTrue, length, ℕ, Err, IfOk};
ghost use Rattle.os_ast.specs.Fronts.{Begun, kinds_of, line_at, last_line, IsRefusedAt, HasPlace, OnePlace};
ghost use Rattle.os_ast.specs.Means.{Means, OneReading};
ghost use Rattle.os_ast.specs.Views.{program_tree};
ghost use Rattle.os_lexer.specs.Limits.{text_limit};
ghost use Rattle.os_parser.specs.declared.parse_error.ParseError.TheVariants as errors;

use crate::parse_error::ParseError;
use crate::program::program;
use os_ast::{DEPTH_LIMIT, Program};
use os_io::Memory;
use os_lexer::Token;
use os_parser_expressions::{Cursor, ProductionError};
use os_parser_places::refusals_stand_at_their_place;
use std::alloc::Global;

/// The program that the tokens mean, or the place where they stop being the front of any. It takes time linear in the
/// tokens, and stack for the limit of depth.
pub fn parse(alloc: Global, tokens: &[Token]) -> Result<Program, ParseError>
    requires { length tokens.now ≤ text_limit }
    // What is read is the program that the tokens mean.
    ensures found { IfOk result (λ p. Means tokens.now (program_tree p)) }
    // Tokens are refused only where they mean no program, at their place and with its line.
    ensures refused { (place line : ℕ) → result ≡ Err (errors.Syntax place line) → IsRefusedAt tokens.now place line }
{
    let mut cursor = Cursor::new(tokens);
    match program(alloc, &mut cursor, DEPTH_LIMIT - 1) {
        Ok(items) => Ok(Program { items }),
        Err(ProductionError::Memory) => Err(ParseError::Memory),
        Err(ProductionError::Syntax) => Err(refusal(tokens, cursor.left())),
    }
}

/// Whether some program of depth at most 200 begins with the tokens.
pub fn is_front(alloc: Global, tokens: &[Token]) -> Result<bool, Memory>
    requires { length tokens.now ≤ text_limit }
    ensures { IfOk result (λ front. IsTrue front ↔ Begun (kinds_of tokens.now)) }
{
    let _program = match parse(alloc, tokens) {
        Ok(program) => program,
        Err(ParseError::Syntax { place, .. }) => return Ok(is_end(tokens, place)),
        Err(ParseError::Memory) => return Err(Memory),
    };
    Ok(true)
}

/// Whether a place is that behind all tokens.
fn is_end(tokens: &[Token], place: u32) -> bool
    ensures { result ≡ (place == length tokens.now) }
{
    place as usize == tokens.len()
}

/// The refusal at the first of the last `left` tokens, or behind all tokens where `left` is 0.
fn refusal(tokens: &[Token], left: usize) -> ParseError
    requires length { length tokens.now ≤ text_limit }
    requires left { left ≤ length tokens.now }
    ensures { result ≡ errors.Syntax (length tokens.now - left) (line_at tokens.now (length tokens.now - left)) }
{
    let place = tokens.len() - left;
    ParseError::Syntax {
        place: place as u32,
        line: line_at(tokens, place),
    }
}

/// The line of the token at a place, or else of the last one, or 1.
fn line_at(tokens: &[Token], place: usize) -> u32
    ensures { result ≡ line_at tokens.now place }
{
    match tokens.get(place) {
        Some(token) => token.line,
        None => last_line(tokens),
    }
}

/// The line of the last token, or 1.
fn last_line(tokens: &[Token]) -> u32
    ensures { result ≡ last_line tokens.now }
{
    match tokens.last() {
        Some(token) => token.line,
        None => 1,
    }
}

/// A list of tokens has at most one reading. This is a law: it takes nothing and does nothing.
#[tactic(auto, using(os_parser_grammar::proofs::Programs::one))]
pub fn one_reading()
    ensures { OneReading }
{}

/// Tokens that mean no program have a place of refusal, and only one. This is a law: it takes nothing and does nothing.
pub fn one_place()
    ensures some { HasPlace }
    ensures one { OnePlace }
{
    refusals_stand_at_their_place();
}
