//! The results of cases, as text and as a report.

use crate::case_run::CaseResult;
use crate::request::{Form, ReportFile};
use crate::status::Status;
use os_io::Memory;
use osvectors_cases::{Outcome, Row, junit_text, tap_text};
use osview_text::Text;
use std::alloc::Global;

/// The status of several results, that with the greatest number.
pub(crate) fn status_of(results: &[CaseResult]) -> Status {
    let mut status = Status::AllPassed;
    for result in results {
        status = status.and(result.status);
    }
    status
}

/// The rows of results.
pub(crate) fn rows_of(alloc: Global, results: Vec<CaseResult>) -> Result<Vec<Row>, Memory> {
    let mut rows = Vec::new(alloc);
    for result in results {
        rows.push(result.row)?;
    }
    Ok(rows)
}

/// Adds the line of a case that did not pass.
fn add_row(told: &mut Text, file: &[u8], row: &Row) -> Result<(), Memory> {
    told.add(file)?;
    told.add(b":")?;
    told.add(&row.title)?;
    told.add(b": ")?;
    told.add(&row.why)?;
    told.add(b"\n")
}

/// How many cases passed.
fn passed_in(rows: &[Row]) -> usize {
    rows.iter()
        .filter(|row| row.outcome == Outcome::Passed)
        .count()
}

/// Adds how many cases passed.
fn add_count(told: &mut Text, passed: usize, all: usize) -> Result<(), Memory> {
    told.number(passed as u64)?;
    told.field(b" of ", all as u64)?;
    told.add(b" passed\n")
}

/// What is told of all cases: a line for each that did not pass, and how many did.
pub(crate) fn told_of(alloc: Global, file: &[u8], rows: &[Row]) -> Result<Vec<u8>, Memory> {
    let mut told = Text::new(alloc);
    for row in rows {
        if row.outcome != Outcome::Passed {
            add_row(&mut told, file, row)?;
        }
    }
    add_count(&mut told, passed_in(rows), rows.len())?;
    Ok(told.into_bytes())
}

/// The report of all cases, in its form.
pub(crate) fn report_of(
    alloc: Global,
    report: &ReportFile<'_>,
    file: &[u8],
    rows: &[Row],
) -> Result<Vec<u8>, Memory> {
    match report.form {
        Form::Tap => tap_text(alloc, rows),
        Form::Junit => junit_text(alloc, file, rows),
    }
}
