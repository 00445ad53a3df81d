//! What is wrong with a text that isn't accepted.

ghost use Rattle.std.specs.Prelude.{◌≡◌, ◌≤◌, IfOk, length, take};
ghost use Rattle.os_lexer.specs.Limits.{text_limit};
ghost use Rattle.oscheck.specs.Findings.{EachTold, IsFindingOf};
ghost use Rattle.oscheck_reports.specs.declared.check.Check.TheVariants as checks;

use crate::found::{found_at, found_of};
use crate::listing::token_of;
use crate::syntax_error::SyntaxError;
use os_ast::Violation;
use os_io::Memory;
use os_lexer::{Fault, Token};
use oscheck_places::{Spot, fault_spot};
use oscheck_reports::{Check, Finding, Place};
use oscheck_sentences::{At, Sentence, Use, Word, of_fault, of_rule, word_of};
use std::alloc::Global;

/// The bytes of a spot, or none.
fn bytes_of(text: &[u8], spot: Spot) -> &[u8] {
    match text.get(spot.start..spot.end) {
        Some(bytes) => bytes,
        None => &[],
    }
}

/// The word for some bytes.
fn word_of_bytes(bytes: &[u8]) -> Word<'_> {
    match str::from_utf8(bytes) {
        Ok("") => Word::Plain("a byte or a run of characters"),
        Ok(word) => Word::Spelled(word),
        Err(_) => Word::Plain("a byte"),
    }
}

/// A sentence about a word.
fn said(alloc: Global, sentence: Sentence, word: Word<'_>) -> Result<Vec<u8>, Memory> {
    let mut said = Vec::new(alloc);
    match sentence.write(&mut said, word) {
        Ok(()) => Ok(said),
        Err(_) => Err(Memory),
    }
}

/// The first fault of the bytes of a text, by what it is and its line.
pub(crate) fn fault_found(
    alloc: Global,
    text: &[u8],
    fault: Fault,
    line: u32,
) -> Result<Finding, Memory>
    requires { length text.now ≤ text_limit }
    ensures { IfOk result (λ finding. finding.check ≡ checks.Fault fault) }
{
    let check = Check::Fault(fault);
    match fault_spot(alloc, text, fault, line)? {
        Some(spot) => {
            let bytes = bytes_of(text, spot);
            let said = said(alloc, of_fault(fault, bytes), word_of_bytes(bytes))?;
            found_at(alloc, text, check, spot, &said)
        }
        None => {
            let said = said(alloc, of_fault(fault, &[]), word_of_bytes(&[]))?;
            found_of(alloc, check, Place::Line(line), &said)
        }
    }
}

/// Where the tokens of a text stop being the front of any program, and what could stand there.
pub(crate) fn stop_found(alloc: Global, text: &[u8]) -> Result<Finding, Memory>
    requires { length text.now ≤ text_limit }
    ensures { IfOk result (λ finding. finding.check ≡ checks.NoProgram) }
{
    let stop = SyntaxError::find(alloc, text)?;
    let mut said = Vec::new(alloc);
    match stop.write(&mut said) {
        Ok(()) => found_at(alloc, text, Check::NoProgram, stop.spot(), &said),
        Err(_) => Err(Memory),
    }
}

/// A text that violates rules, with its tokens and where its names stand and what they mean.
#[derive(Clone, Copy)]
pub(crate) struct Judging<'a> {
    pub(crate) text: &'a [u8],
    pub(crate) tokens: &'a [Token],
    pub(crate) uses: &'a [Use],
}

/// What a violation says, with the word for its token.
fn violation_said(
    alloc: Global,
    judging: Judging<'_>,
    violation: Violation,
    word: Word<'_>,
) -> Result<Vec<u8>, Memory> {
    let at = At {
        word,
        tokens: judging.tokens,
        uses: judging.uses,
        place: violation.place as usize,
    };
    said(alloc, of_rule(violation.rule, &at), word)
}

/// A violation at its token, or by its line alone where no token has it.
fn violation_found(
    alloc: Global,
    judging: Judging<'_>,
    violation: Violation,
) -> Result<Finding, Memory>
    ensures { IfOk result (IsFindingOf judging.entry.text.now judging.entry.tokens.now violation) }
{
    let check = Check::Rule(violation.rule);
    match token_of(judging.tokens, violation) {
        Some(token) => {
            let said = violation_said(alloc, judging, violation, word_of(judging.text, token))?;
            found_at(alloc, judging.text, check, Spot::of_token(token), &said)
        }
        None => {
            let said = violation_said(alloc, judging, violation, Word::Plain("the program"))?;
            found_of(alloc, check, Place::Line(violation.line), &said)
        }
    }
}

/// The first of some violations, at most so many.
pub(crate) fn violations_found(
    alloc: Global,
    judging: Judging<'_>,
    all: &[Violation],
    most: usize,
) -> Result<Vec<Finding>, Memory>
    ensures { IfOk result (λ findings. EachTold (IsFindingOf judging.entry.text.now judging.entry.tokens.now) (take most all.now) findings.items) }
{
    let mut findings = Vec::new(alloc);
    for number in 0..all.len().min(most) {
        findings.push(violation_found(alloc, judging, all[number])?)?;
    }
    Ok(findings)
}
