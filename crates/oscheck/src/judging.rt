//! What is found in a text.

ghost use Rattle.std.specs.Prelude.{◌≡◌, ◌≤◌, IfOk, length, string_bytes, take};
ghost use Rattle.front_end.specs.Codes.{refusal_code};
ghost use Rattle.front_end.specs.Texts.{IsRefused};
ghost use Rattle.os_lexer.specs.Cover.{IsTokenCover};
ghost use Rattle.os_lexer.specs.Limits.{text_limit};
ghost use Rattle.oscheck.specs.Findings.{EachTold, IsFindingOf, more_notes};
ghost use Rattle.oscheck.specs.Reports.{IsReportOn, more_of, most_of};
ghost use Rattle.oscheck_reports.specs.declared.check.Severity.TheVariants as severities;

use crate::errors::{Judging, fault_found, stop_found, violations_found};
use crate::listing::listed;
use crate::manner::{Extent, Manner};
use crate::reports::{more_notes, of_one};
use crate::warning::accepted_report;
use front_end::{TextError, TextRefusal, read_program};
use os_ast::Violation;
use os_io::Memory;
use os_lexer::{Token, lex};
use oscheck_reports::{Report, Severity};
use oscheck_sentences::uses;
use std::alloc::Global;

/// A text with the name that it is told by.
#[derive(Clone, Copy)]
pub(crate) struct Named<'a> {
    pub(crate) name: &'a str,
    pub(crate) text: &'a [u8],
}

/// A report on a text, by its violations.
fn report_of_all(
    alloc: Global,
    name: &str,
    judging: Judging<'_>,
    all: &[Violation],
    extent: Extent,
) -> Result<Report, Memory>
    ensures name { IfOk result (λ report. string_bytes report.name ≡ name.now) }
    ensures findings { IfOk result (λ report. EachTold (IsFindingOf judging.entry.text.now judging.entry.tokens.now)
        (take (most_of extent) all.now) report.findings.items) }
    ensures notes { IfOk result (λ report. report.notes.items ≡ more_notes severities.Error (more_of extent (length all.now))) }
{
    let findings = violations_found(alloc, judging, all, extent.most())?;
    let notes = more_notes(alloc, Severity::Error, extent.more(all.len()))?;
    let name = String::from_str(alloc, name)?;
    Ok(Report {
        name,
        findings,
        notes,
    })
}

/// A report on a text that violates rules, by its tokens.
fn report_of_tokens(
    alloc: Global,
    named: Named<'_>,
    tokens: &[Token],
    manner: Manner,
) -> Result<Report, Memory>
    requires few { length tokens.now ≤ text_limit }
    requires cover { IsTokenCover named.text.now tokens.now }
    ensures name { IfOk result (λ report. string_bytes report.name ≡ named.entry.name.now) }
    ensures report { IfOk result (IsReportOn named.entry.text.now manner) }
{
    let all = listed(alloc, tokens)?;
    let uses = uses(alloc, tokens)?;
    let judging = Judging {
        text: named.text,
        tokens,
        uses: &uses,
    };
    let report = report_of_all(alloc, named.name, judging, all.as_slice(), manner.extent)?;
    Ok(report)
}

/// A report on a text that violates rules.
fn violated_report(alloc: Global, named: Named<'_>, manner: Manner) -> Result<Report, Memory>
    requires { length named.text.now ≤ text_limit }
    ensures name { IfOk result (λ report. string_bytes report.name ≡ named.entry.name.now) }
    ensures report { IfOk result (IsReportOn named.entry.text.now manner) }
{
    match lex(alloc, named.text) {
        Ok(tokens) => report_of_tokens(alloc, named, &tokens, manner),
        Err(_) => Err(Memory),
    }
}

/// A report on a text that is refused, by what it is refused for and the line of that.
fn refused_report(
    alloc: Global,
    named: Named<'_>,
    refusal: TextRefusal,
    line: u32,
    manner: Manner,
) -> Result<Report, Memory>
    requires few { length named.text.now ≤ text_limit }
    requires refused { IsRefused named.text.now (refusal_code refusal) line }
    ensures name { IfOk result (λ report. string_bytes report.name ≡ named.entry.name.now) }
    ensures report { IfOk result (IsReportOn named.entry.text.now manner) }
{
    let Named { name, text } = named;
    match refusal {
        TextRefusal::Fault(fault) => {
            let report = of_one(alloc, name, fault_found(alloc, text, fault, line)?)?;
            Ok(report)
        }
        TextRefusal::NoProgram => {
            let report = of_one(alloc, name, stop_found(alloc, text)?)?;
            Ok(report)
        }
        TextRefusal::Violated(_) => violated_report(alloc, named, manner),
    }
}

/// A report on a text: what is wrong with it, or that it is accepted and what it is warned of.
pub(crate) fn report_on(alloc: Global, named: Named<'_>, manner: Manner) -> Result<Report, Memory>
    requires { length named.text.now ≤ text_limit }
    ensures name { IfOk result (λ report. string_bytes report.name ≡ named.entry.name.now) }
    ensures report { IfOk result (IsReportOn named.entry.text.now manner) }
{
    match read_program(alloc, named.text) {
        Ok(checked) => accepted_report(alloc, named, &checked, manner),
        Err(TextError::Refused { refusal, line }) => {
            refused_report(alloc, named, refusal, line, manner)
        }
        Err(TextError::Memory) => Err(Memory),
    }
}
