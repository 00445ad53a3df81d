//! Reports on files, by their parts.

ghost use Rattle.std.specs.Prelude.{◌≡◌, ◌∷◌, [], IfOk, string_bytes};
ghost use Rattle.oscheck.specs.Findings.{more_notes};

use crate::found::found_of;
use crate::judged::Judged;
use crate::loading::NoText;
use front_end::TEXT_LIMIT;
use os_io::Memory;
use oscheck_reports::{Check, Finding, Note, Place, Report, Severity};
use std::alloc::Global;
use std::io::Write;

/// A list of one note.
pub(crate) fn only(alloc: Global, note: Note) -> Result<Vec<Note>, Memory>
    ensures { IfOk result (λ notes. notes.items ≡ note ∷ []) }
{
    let mut notes = Vec::new(alloc);
    notes.push(note)?;
    Ok(notes)
}

/// A note on how many more errors or warnings there are, where there are some.
pub(crate) fn more_notes(
    alloc: Global,
    severity: Severity,
    more: usize,
) -> Result<Vec<Note>, Memory>
    ensures { IfOk result (λ notes. notes.items ≡ more_notes severity more) }
{
    if more == 0 {
        return Ok(Vec::new(alloc));
    }
    only(alloc, Note::More(severity, more as u64))
}

/// A report on a file with one finding.
pub(crate) fn of_one(alloc: Global, name: &str, finding: Finding) -> Result<Report, Memory>
    ensures name { IfOk result (λ report. string_bytes report.name ≡ name.now) }
    ensures findings { IfOk result (λ report. report.findings.items ≡ finding ∷ []) }
    ensures notes { IfOk result (λ report. report.notes.items ≡ []) }
{
    let name = String::from_str(alloc, name)?;
    let mut findings = Vec::new(alloc);
    findings.push(finding)?;
    Ok(Report {
        name,
        findings,
        notes: Vec::new(alloc),
    })
}

/// A report on a file with a note alone.
pub(crate) fn of_note(alloc: Global, name: &str, note: Note) -> Result<Report, Memory>
    ensures name { IfOk result (λ report. string_bytes report.name ≡ name.now) }
    ensures findings { IfOk result (λ report. report.findings.items ≡ []) }
    ensures notes { IfOk result (λ report. report.notes.items ≡ note ∷ []) }
{
    let name = String::from_str(alloc, name)?;
    let notes = only(alloc, note)?;
    Ok(Report {
        name,
        findings: Vec::new(alloc),
        notes,
    })
}

/// What is said of a text with too many bytes.
fn too_long(alloc: Global) -> Result<Finding, Memory> {
    let mut sentence = Vec::new(alloc);
    if write!(sentence, "a text has at most {TEXT_LIMIT} bytes").is_err() {
        return Err(Memory);
    }
    found_of(alloc, Check::TooLong, Place::File, &sentence)
}

/// A report on a file that has no text.
pub(crate) fn of_no_text(alloc: Global, name: &str, why: NoText) -> Result<Report, Memory> {
    match why {
        NoText::TooLong => of_one(alloc, name, too_long(alloc)?),
        NoText::Failed if name.starts_with('-') => of_note(alloc, name, Note::NoOption),
        NoText::Failed => of_note(alloc, name, Note::Unreadable),
        NoText::Memory => of_note(alloc, name, Note::NoMemory),
    }
}

/// What a note says of its file.
fn judged_by(note: Note) -> Judged {
    match note {
        Note::Accepted => Judged::Accepted,
        Note::More(..) | Note::RefusedForWarnings => Judged::Refused,
        Note::Unreadable | Note::NoOption | Note::NoName | Note::NoMemory => Judged::Unjudged,
    }
}

/// What a report says of its file, by its last note: without one the file is refused for what was found.
pub(crate) fn judged_of(report: &Report) -> Judged {
    match report.notes.last() {
        Some(note) => judged_by(*note),
        None => Judged::Refused,
    }
}
