//! How reports are told.

ghost use Rattle.std.specs.Prelude.{◌≡◌, ◌∷◌, ◌≤◌, ℕ, List, [], IfOk, length};
ghost use Rattle.os_lexer.specs.Limits.{text_limit};
ghost use Rattle.oscheck.specs.Reports.{IsToldOf};
ghost use Rattle.oscheck_reports.specs.Forms.{form};

use crate::judged::Judged;
use crate::judging::{Named, report_on};
use crate::manner::Manner;
use crate::options::VERSION;
use crate::reports::judged_of;
use os_io::Memory;
use oscheck_reports::{Format, Report, form};
use std::alloc::Global;
use std::{io, slice};

/// What is told of a file, and what that says of it.
#[derive(Drop)]
pub(crate) struct Told {
    text: Vec<u8>,
    judged: Judged,
}

/// What is told of a file by a report on it.
pub(crate) fn told_by(alloc: Global, format: Format, report: &Report) -> Result<Told, Memory>
    ensures { IfOk result (λ told. (version : List ℕ) × (told.text.items ≡ form format version (report.now ∷ []))) }
{
    let text = form(alloc, format, VERSION, slice::from_ref(report))?;
    let judged = judged_of(report);
    Ok(Told { text, judged })
}

/// What is told of a text.
pub(crate) fn told_of(
    alloc: Global,
    format: Format,
    named: Named<'_>,
    manner: Manner,
) -> Result<Told, Memory>
    requires { length named.text.now ≤ text_limit }
    ensures { IfOk result (λ told. IsToldOf format named.entry.text.now named.entry.name.now manner told.text.items) }
{
    let report = report_on(alloc, named, manner)?;
    let told = told_by(alloc, format, &report)?;
    Ok(told)
}

/// Tells that memory could not be had for judging a file.
pub(crate) fn tell_no_memory(out: &mut impl io::Write, name: &str) -> io::Result<Judged> {
    writeln!(out, "{name}: memory ran out")?;
    Ok(Judged::Unjudged)
}

/// Tells of a file what there is to tell, where memory could be had for it.
pub(crate) fn tell(
    out: &mut impl io::Write,
    name: &str,
    told: Result<Told, Memory>,
) -> io::Result<Judged> {
    match told {
        Ok(Told { text, judged }) => {
            out.write_all(&text)?;
            Ok(judged)
        }
        Err(Memory) => tell_no_memory(out, name),
    }
}

/// Tells the reports on all files at once.
pub(crate) fn tell_all(
    out: &mut impl io::Write,
    alloc: Global,
    format: Format,
    reports: &[Report],
) -> io::Result<()> {
    match form(alloc, format, VERSION, reports) {
        Ok(text) => out.write_all(&text),
        Err(Memory) => Err(io::ErrorKind::OutOfMemory.into()),
    }
}
