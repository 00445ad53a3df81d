ghost use Rattle.std.specs.Prelude.{◌≡◌};
ghost use Rattle.front_end.specs.Told.{HasRule, IsToldViolation, told_fault, told_syntax};
ghost use Rattle.front_end.specs.declared.text_error.TextError.TheVariants as errors;
ghost use Rattle.front_end.specs.declared.text_refusal.TextRefusal.TheVariants as refusals;

use crate::text_refusal::TextRefusal;
use os_ast::Rule;
use os_lexer::{Fault, LexError};
use os_parser::ParseError;
use thiserror::Error;
use window_check::CheckError;

/// Why a text was not accepted.
#[derive(Clone, Copy, Debug, PartialEq, Eq, Error)]
pub enum TextError {
    /// What is wrong, and the line: that of its first fault, where its tokens stop being the front of any program, or
    /// that of its least violation.
    #[error("refused by rule {} in line {line}", .refusal.code())]
    Refused { refusal: TextRefusal, line: u32 },
    /// Memory could not be had. This says nothing of the text.
    #[error("memory could not be had")]
    Memory,
}

/// What is told of a fault in a line.
fn refused_for(fault: Fault, line: u32) -> TextError
    ensures { result ≡ errors.Refused (refusals.Fault fault) line }
{
    TextError::Refused {
        refusal: TextRefusal::Fault(fault),
        line,
    }
}

/// What the first fault of a text is told as.
pub(crate) fn fault_error(error: LexError) -> TextError
    ensures { result ≡ told_fault error }
{
    match error {
        LexError::BadByte { line } => refused_for(Fault::BadByte, line),
        LexError::OpenComment { line } => refused_for(Fault::OpenComment, line),
        LexError::BigNumber { line } => refused_for(Fault::BigNumber, line),
        LexError::Memory => TextError::Memory,
    }
}

/// What is told where the tokens are those of no program.
pub(crate) fn syntax_error(error: ParseError) -> TextError
    ensures { result ≡ told_syntax error }
{
    match error {
        ParseError::Syntax { line, .. } => TextError::Refused {
            refusal: TextRefusal::NoProgram,
            line,
        },
        ParseError::Memory => TextError::Memory,
    }
}

/// What the least violation of a program is told as.
pub(crate) fn violation_error(error: CheckError) -> TextError
    requires { HasRule error }
    ensures { IsToldViolation error result }
{
    match error {
        CheckError::Fault { code, line } => match Rule::of_code(code) {
            Some(rule) => TextError::Refused {
                refusal: TextRefusal::Violated(rule),
                line,
            },
            None => unreachable!(),
        },
        CheckError::Memory => TextError::Memory,
    }
}
