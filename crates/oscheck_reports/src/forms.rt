ghost use Rattle.std.specs.Prelude.{◌≡◌, ◌++◌, IfOk, OnOk};
ghost use Rattle.std.specs.List.{flat_map};
ghost use Rattle.oscheck_reports.specs.Forms.{form};
ghost use Rattle.oscheck_reports.specs.Gcc.{gcc_form};
ghost use Rattle.oscheck_reports.specs.Plain.{text_form};

use crate::gcc::add_gcc;
use crate::plain::add_text;
use crate::report::Report;
use crate::sarif::sarif_form;
use os_io::Memory;
use osview_text::Text;
use std::alloc::Global;

/// How reports are written.
#[derive(Clone, Copy, Debug, PartialEq, Eq)]
pub enum Format {
    /// For people: each finding with its line and a mark.
    Text,
    /// As gcc writes: a line for each finding.
    Gcc,
    /// SARIF 2.1.0: one text in JSON, whose run has the version of the program.
    Sarif,
}

/// Reports for people, one after another.
fn text_form(alloc: Global, reports: &[Report]) -> Result<Vec<u8>, Memory>
    ensures { IfOk result (λ text. text.items ≡ flat_map text_form reports.now) }
{
    let mut told = Text::new(alloc);
    for number in 0..reports.len() {
        add_text(alloc, &mut told, &reports[number])?;
    }
    Ok(told.into_bytes())
}

/// Reports as lines that editors read as those of gcc, one after another.
fn gcc_form(alloc: Global, reports: &[Report]) -> Result<Vec<u8>, Memory>
    ensures { IfOk result (λ text. text.items ≡ flat_map gcc_form reports.now) }
{
    let mut told = Text::new(alloc);
    for number in 0..reports.len() {
        add_gcc(alloc, &mut told, &reports[number])?;
    }
    Ok(told.into_bytes())
}

/// What is written of the reports on some files. The version is that of the program.
pub fn form(
    alloc: Global,
    format: Format,
    version: &str,
    reports: &[Report],
) -> Result<Vec<u8>, Memory>
    ensures { IfOk result (λ text. text.items ≡ form format version.now reports.now) }
{
    match format {
        Format::Text => text_form(alloc, reports),
        Format::Gcc => gcc_form(alloc, reports),
        Format::Sarif => sarif_form(alloc, version, reports),
    }
}
