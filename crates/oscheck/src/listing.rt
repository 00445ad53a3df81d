//! All violations of a text, by its tokens.

ghost use Rattle.std.specs.Prelude.{◌≡◌, ◌≤◌, length, IfOk};
ghost use Rattle.std.specs.List.{slice_get};
ghost use Rattle.os_lexer.specs.Limits.{text_limit};
ghost use Rattle.oscheck.specs.Listed.{IsListOfTokens, token_of};

use os_ast::Violation;
use os_ast::laws::meaning_by_tokens;
use os_io::{List, Memory};
use os_lexer::Token;
use os_parser::parse;
use std::alloc::Global;
use window_check::all_violations;

/// All violations of the program that tokens mean, in order. That they mean one is known already, so that only memory can be wanting.
pub(crate) fn listed(alloc: Global, tokens: &[Token]) -> Result<List<Violation>, Memory>
    requires { length tokens.now ≤ text_limit }
    ensures { IfOk result (IsListOfTokens tokens.now) }
{
    let Ok(program) = parse(alloc, tokens) else {
        return Err(Memory);
    };
    meaning_by_tokens();
    all_violations(alloc, &program, tokens.len())
}

/// The token of a violation: that there is no `main` stands behind all tokens, at none.
pub(crate) fn token_of(tokens: &[Token], violation: Violation) -> Option<Token>
    ensures { result ≡ token_of tokens.now violation }
{
    match tokens.get(violation.place as usize) {
        Some(token) => Some(*token),
        None => None,
    }
}
