ghost use Rattle.std.specs.Prelude.{ℕ, ◌≤◌, List, length, All, IfOk, IfErr};
ghost use Rattle.os_lexer.specs.Cover.{IsTokenCover, IsFirstFault};
ghost use Rattle.os_lexer.specs.Answer.{IsFaultOf, IsGivenUnlessMemory, IsToldUnlessMemory};
ghost use Rattle.os_lexer.specs.Laws.{HasFittingNumber};
ghost use Rattle.os_lexer.specs.Limits.{text_limit};
ghost use Rattle.os_lexer.specs.declared.token.Token.{Token};

use crate::fault::LexError;
use crate::lexer::Lexer;
use crate::token::Token;
use std::alloc::Global;

/// The tokens of a text, each with its slice of the text and its line. It looks at each byte a bounded
/// number of times, and the cost of a name is logarithmic in the number of names.
pub fn lex(alloc: Global, text: &[u8]) -> Result<Vec<Token>, LexError>
    requires { length text.now ≤ text_limit }

    // What is answered is right.
    ensures cover { IfOk result (λ tokens. IsTokenCover text.now tokens.items) }
    ensures fault { IfErr result (IsFaultOf text.now) }

    // It is answered wherever it is right, unless memory runs out.
    ensures covered { (tokens : List Token) → IsTokenCover text.now tokens
        → IsGivenUnlessMemory tokens result }
    ensures faulted { (code line : ℕ) → IsFirstFault text.now code line
        → IsToldUnlessMemory code line result }

    // No text has more tokens than bytes. A number is at most 2,147,483,647, and a wide one at most 4,294,967,295.
    ensures few { IfOk result (λ tokens. length tokens.items ≤ length text.now) }
    ensures fit { IfOk result (λ tokens. All (λ token. HasFittingNumber token.kind) tokens.items) }
{
    tokens_of(alloc, text)
}

fn tokens_of(alloc: Global, text: &[u8]) -> Result<Vec<Token>, LexError>
    requires { length text.now ≤ text_limit }
    ensures cover { IfOk result (λ tokens. IsTokenCover text.now tokens.items) }
    ensures fault { IfErr result (IsFaultOf text.now) }
{
    let mut lexer = Lexer::new(alloc);
    while lexer.at() < text.len() {
        lexer.advance(text)?;
    }
    lexer.finish()
}
