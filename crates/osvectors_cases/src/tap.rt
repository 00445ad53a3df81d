//! Reports in the Test Anything Protocol.

ghost use Rattle.std.specs.Prelude.{◌≡◌, ◌++◌, IfOk, OnOk, map};
ghost use Rattle.std.specs.Fmt.{decimal};
ghost use Rattle.osvectors_cases.specs.Reports.{row_of};
ghost use Rattle.osvectors_cases.specs.Tap.{diagnostic, tap_lines, tap_lines_by, tap_report, test_point};

use crate::escaping::add_tap;
use crate::row::{Outcome, Row};
use os_io::Memory;
use osview_text::Text;
use std::alloc::Global;

/// Adds the test point of a case.
fn add_point(told: &mut Text, verdict: &[u8], number: u64, row: &Row) -> Result<(), Memory>
    ensures { OnOk result (told.new ≡ told.old ++ test_point verdict.now number (row_of row.now)) }
{
    told.field(verdict, number)?;
    told.add(b" - ")?;
    add_tap(told, &row.title)?;
    told.add(b"\n")
}

/// Adds why a case failed.
fn add_diagnostic(told: &mut Text, why: &[u8]) -> Result<(), Memory>
    ensures { OnOk result (told.new ≡ told.old ++ diagnostic why.now) }
{
    told.add(b"# ")?;
    add_tap(told, why)?;
    told.add(b"\n")
}

/// Adds the lines of a case.
fn add_lines(told: &mut Text, number: u64, row: &Row) -> Result<(), Memory>
    ensures { OnOk result (told.new ≡ told.old ++ tap_lines_by row.now.outcome number (row_of row.now)) }
{
    match row.outcome {
        Outcome::Passed => add_point(told, b"ok ", number, row),
        Outcome::Failed | Outcome::Broken => {
            add_point(told, b"not ok ", number, row)?;
            add_diagnostic(told, &row.why)
        }
    }
}

/// Adds a number between bytes.
fn add_between(told: &mut Text, before: &[u8], number: u64, behind: &[u8]) -> Result<(), Memory>
    ensures { OnOk result (told.new ≡ told.old ++ (before.now ++ decimal number ++ behind.now)) }
{
    told.field(before, number)?;
    told.add(behind)
}

/// Adds the lines of all cases.
fn add_all(told: &mut Text, rows: &[Row]) -> Result<(), Memory>
    ensures { OnOk result (told.new ≡ told.old ++ tap_lines 1 (map row_of rows.now)) }
{
    for (place, row) in rows.iter().enumerate() {
        add_lines(told, place as u64 + 1, row)?;
    }
    Ok(())
}

/// The report of cases in the Test Anything Protocol.
pub fn tap_text(alloc: Global, rows: &[Row]) -> Result<Vec<u8>, Memory>
    ensures { IfOk result (λ told. told.items ≡ tap_report (map row_of rows.now)) }
{
    let mut told = Text::new(alloc);
    add_between(&mut told, b"TAP version 13\n1..", rows.len() as u64, b"\n")?;
    add_all(&mut told, rows)?;
    Ok(told.into_bytes())
}
