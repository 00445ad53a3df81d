//! What is written of a file as gcc would.

ghost use Rattle.std.specs.Prelude.{◌≡◌, ◌++◌, OnOk, codes};
ghost use Rattle.std.specs.Fmt.{decimal};
ghost use Rattle.std.specs.List.{flat_map};
ghost use Rattle.oscheck_reports.specs.Checks.{severity_of};
ghost use Rattle.oscheck_reports.specs.Gcc.{finding_line, gcc_form, told_note};
ghost use Rattle.oscheck_reports.specs.Notes.{severity_word};
ghost use Rattle.oscheck_reports.specs.Places.{byte_of, line_of};

use crate::check::Check;
use crate::finding::{Finding, Place};
use crate::note::{Note, severity_word};
use crate::plain::{add_column, add_note};
use crate::report::Report;
use os_io::Memory;
use osview_text::Text;
use std::alloc::Global;

/// Adds the front of a line: the file, the line, the column, and whether it is an error.
fn add_head(told: &mut Text, name: &[u8], place: Place, check: Check) -> Result<(), Memory>
    ensures { OnOk result (told.new ≡ told.old ++ (name.now ++ codes ":" ++ decimal (line_of place) ++ codes ":" ++ decimal (byte_of place)
        ++ codes ": " ++ severity_word (severity_of check) ++ codes ": ")) }
{
    told.add(name)?;
    add_column(told, place.line(), place.byte())?;
    told.add(b": ")?;
    told.add(severity_word(check.severity()).as_bytes())?;
    told.add(b": ")
}

/// Adds the line of a finding.
fn add_finding(told: &mut Text, name: &[u8], finding: &Finding) -> Result<(), Memory>
    ensures { OnOk result (told.new ≡ told.old ++ finding_line name.now finding.now) }
{
    add_head(told, name, finding.place, finding.check)?;
    told.add(finding.sentence.as_bytes())?;
    told.add(b" [")?;
    told.add(finding.check.name().as_bytes())?;
    told.add(b"]\n")
}

/// Adds the lines of all findings.
fn add_findings(told: &mut Text, name: &[u8], findings: &[Finding]) -> Result<(), Memory>
    ensures { OnOk result (told.new ≡ told.old ++ flat_map (finding_line name.now) findings.now) }
{
    for number in 0..findings.len() {
        add_finding(told, name, &findings[number])?;
    }
    Ok(())
}

/// Adds a note, where it doesn't tell that all is well.
fn add_told(alloc: Global, told: &mut Text, name: &[u8], note: Note) -> Result<(), Memory>
    ensures { OnOk result (told.new ≡ told.old ++ told_note name.now note) }
{
    if note.is_accepted() {
        told.add(b"")
    } else {
        add_note(alloc, told, name, note)
    }
}

/// Adds all notes.
fn add_notes(alloc: Global, told: &mut Text, name: &[u8], notes: &[Note]) -> Result<(), Memory>
    ensures { OnOk result (told.new ≡ told.old ++ flat_map (told_note name.now) notes.now) }
{
    for number in 0..notes.len() {
        add_told(alloc, told, name, notes[number])?;
    }
    Ok(())
}

/// Adds a report: a line for each finding, and the notes.
pub(crate) fn add_gcc(alloc: Global, told: &mut Text, report: &Report) -> Result<(), Memory>
    ensures { OnOk result (told.new ≡ told.old ++ gcc_form report.now) }
{
    let name = report.name.as_bytes();
    add_findings(told, name, &report.findings)?;
    add_notes(alloc, told, name, &report.notes)
}
