ghost use Rattle.std.specs.Prelude.{◌≤◌, length, IfOk, IfErr};
ghost use Rattle.front_end.specs.Texts.{AcceptedOrRefused, IsAccepted, IsTrueOf, NeverBoth, OneProgram, OneRefusal};
ghost use Rattle.os_ast.specs.Views.{program_tree};
ghost use Rattle.os_lexer.specs.Cover.{IsTokenCover};
ghost use Rattle.os_lexer.specs.Limits.{text_limit};

use crate::text_error::{TextError, fault_error, syntax_error, violation_error};
use os_ast::laws::meaning_by_tokens;
use os_lexer::{Token, lex, one_cover};
use os_parser::{one_place, one_reading, parse};
use std::alloc::Global;
use window_check::{Checked, check, marks_have_places};

/// The program that a text means, checked. A text has at most 262,144 bytes.
pub fn read_program(alloc: Global, text: &[u8]) -> Result<Checked, TextError>
    requires { length text.now ≤ text_limit }
    ensures accepted { IfOk result (λ checked. IsAccepted text.now (program_tree checked.program)) }
    ensures refused { IfErr result (IsTrueOf text.now) }
{
    match lex(alloc, text) {
        Ok(tokens) => read_tokens(alloc, text, &tokens),
        Err(error) => Err(fault_error(error)),
    }
}

/// Parses and checks the tokens of a text.
fn read_tokens(alloc: Global, text: &[u8], tokens: &[Token]) -> Result<Checked, TextError>
    requires cover { IsTokenCover text.now tokens.now }
    requires few { length tokens.now ≤ text_limit }
    ensures accepted { IfOk result (λ checked. IsAccepted text.now (program_tree checked.program)) }
    ensures refused { IfErr result (IsTrueOf text.now) }
{
    let program = match parse(alloc, tokens) {
        Ok(program) => program,
        Err(error) => return Err(syntax_error(error)),
    };
    meaning_by_tokens();
    marks_have_places();
    match check(alloc, program) {
        Ok(checked) => Ok(checked),
        Err(error) => Err(violation_error(error)),
    }
}

/// A text is accepted as one program or refused in one way, with one code and one line, and never both: so each answer
/// of `read_program` comes wherever it is right, unless memory runs out. This is a law: it takes nothing and does nothing.
pub fn one_answer()
    ensures program { OneProgram }
    ensures never_both { NeverBoth }
    ensures refusal { OneRefusal }
    ensures either { AcceptedOrRefused }
{
    one_cover();
    one_reading();
    one_place();
    meaning_by_tokens();
}
