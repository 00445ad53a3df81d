//! What is written of a file for people.

ghost use Rattle.std.specs.Prelude.{◌≡◌, ◌++◌, OnOk, codes};
ghost use Rattle.std.specs.Fmt.{decimal};
ghost use Rattle.std.specs.List.{flat_map};
ghost use Rattle.oscheck_reports.specs.Checks.{code_of, severity_of};
ghost use Rattle.oscheck_reports.specs.Notes.{severity_word};
ghost use Rattle.oscheck_reports.specs.Plain.{code_text, finding_text, note_line, place_text, text_form};

use crate::check::Check;
use crate::finding::{Finding, Place};
use crate::note::{Note, severity_word};
use crate::report::Report;
use os_io::Memory;
use osview_text::Text;
use std::alloc::Global;

/// Adds where something was found.
fn add_place(told: &mut Text, place: Place) -> Result<(), Memory>
    ensures { OnOk result (told.new ≡ told.old ++ place_text place) }
{
    match place {
        Place::File => told.add(b""),
        Place::Line(line) => told.field(b":", u64::from(line)),
        Place::Column { line, byte, .. } => add_column(told, line, byte),
    }
}

/// Adds a line and a column.
pub(crate) fn add_column(told: &mut Text, line: u32, byte: usize) -> Result<(), Memory>
    ensures { OnOk result (told.new ≡ told.old ++ (codes ":" ++ decimal line ++ codes ":" ++ decimal byte)) }
{
    told.field(b":", u64::from(line))?;
    told.field(b":", byte as u64)
}

/// Adds the number of an error.
fn add_code(told: &mut Text, code: Option<u8>) -> Result<(), Memory>
    ensures { OnOk result (told.new ≡ told.old ++ code_text code) }
{
    match code {
        Some(code) => told.field(b" ", u64::from(code)),
        None => told.add(b""),
    }
}

/// Adds the front of a finding: the file, the place, and what it is.
fn add_head(told: &mut Text, name: &[u8], place: Place, check: Check) -> Result<(), Memory>
    ensures { OnOk result (told.new ≡ told.old ++ (name.now ++ place_text place ++ codes ": " ++ severity_word (severity_of check)
        ++ code_text (code_of check) ++ codes ": ")) }
{
    told.add(name)?;
    add_place(told, place)?;
    told.add(b": ")?;
    told.add(severity_word(check.severity()).as_bytes())?;
    add_code(told, check.code())?;
    told.add(b": ")
}

/// Adds a finding with the lines that show it.
fn add_finding(told: &mut Text, name: &[u8], finding: &Finding) -> Result<(), Memory>
    ensures { OnOk result (told.new ≡ told.old ++ finding_text name.now finding.now) }
{
    add_head(told, name, finding.place, finding.check)?;
    told.add(finding.sentence.as_bytes())?;
    told.add(b"\n")?;
    told.add(&finding.excerpt)
}

/// Adds all findings.
fn add_findings(told: &mut Text, name: &[u8], findings: &[Finding]) -> Result<(), Memory>
    ensures { OnOk result (told.new ≡ told.old ++ flat_map (finding_text name.now) findings.now) }
{
    for number in 0..findings.len() {
        add_finding(told, name, &findings[number])?;
    }
    Ok(())
}

/// Adds a note in a line.
pub(crate) fn add_note(
    alloc: Global,
    told: &mut Text,
    name: &[u8],
    note: Note,
) -> Result<(), Memory>
    ensures { OnOk result (told.new ≡ told.old ++ note_line name.now note) }
{
    told.add(name)?;
    told.add(b": ")?;
    told.add(note.sentence(alloc)?.as_bytes())?;
    told.add(b"\n")
}

/// Adds all notes.
fn add_notes(alloc: Global, told: &mut Text, name: &[u8], notes: &[Note]) -> Result<(), Memory>
    ensures { OnOk result (told.new ≡ told.old ++ flat_map (note_line name.now) notes.now) }
{
    for number in 0..notes.len() {
        add_note(alloc, told, name, notes[number])?;
    }
    Ok(())
}

/// Adds a report: each finding with its line and a mark, and the notes.
pub(crate) fn add_text(alloc: Global, told: &mut Text, report: &Report) -> Result<(), Memory>
    ensures { OnOk result (told.new ≡ told.old ++ text_form report.now) }
{
    let name = report.name.as_bytes();
    add_findings(told, name, &report.findings)?;
    add_notes(alloc, told, name, &report.notes)
}
