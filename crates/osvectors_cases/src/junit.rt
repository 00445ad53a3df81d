//! Reports in the XML of JUnit.

ghost use Rattle.std.specs.Prelude.{◌≡◌, ◌++◌, ◌^◌, ◌<◌, IfOk, OnOk, filter, length, map};
ghost use Rattle.std.specs.List.{flat_map};
ghost use Rattle.osvectors_cases.specs.Junit.{count_attribute, count_line, counts, junit_report, suite_head, text_attribute};
ghost use Rattle.osvectors_cases.specs.Junit.{xml_case, xml_head, xml_outcome, xml_problem};
ghost use Rattle.osvectors_cases.specs.Reports.{has_outcome, row_of};

use crate::escaping::add_xml;
use crate::row::{Outcome, Row};
use os_io::Memory;
use osview_text::Text;
use std::alloc::Global;

/// Adds an attribute of a number.
fn add_count(told: &mut Text, name: &[u8], count: u64) -> Result<(), Memory>
    ensures { OnOk result (told.new ≡ told.old ++ count_attribute name.now count) }
{
    told.field(name, count)?;
    told.add(b"\"")
}

/// Adds an attribute of a text.
fn add_text(told: &mut Text, name: &[u8], text: &[u8]) -> Result<(), Memory>
    ensures { OnOk result (told.new ≡ told.old ++ text_attribute name.now text.now) }
{
    told.add(name)?;
    add_xml(told, text)?;
    told.add(b"\"")
}

/// Whether a row has an outcome.
fn has_outcome(row: &Row, outcome: Outcome) -> bool
    ensures { result ≡ has_outcome outcome (row_of row.now) }
{
    matches!(
        (row.outcome, outcome),
        (Outcome::Passed, Outcome::Passed)
            | (Outcome::Failed, Outcome::Failed)
            | (Outcome::Broken, Outcome::Broken)
    )
}

/// How many rows have an outcome.
fn count_of(rows: &[Row], outcome: Outcome) -> usize
    ensures { result ≡ length (filter (has_outcome outcome) (map row_of rows.now)) }
{
    let mut count = 0;
    for row in rows {
        if has_outcome(row, outcome) {
            count += 1;
        }
    }
    count
}

/// Adds how many cases there are, how many failed, and how many could not be run.
fn add_counts(told: &mut Text, rows: &[Row]) -> Result<(), Memory>
    ensures { OnOk result (told.new ≡ told.old ++ counts (map row_of rows.now)) }
{
    add_count(told, b" tests=\"", rows.len() as u64)?;
    add_count(
        told,
        b" failures=\"",
        count_of(rows, Outcome::Failed) as u64,
    )?;
    add_count(told, b" errors=\"", count_of(rows, Outcome::Broken) as u64)
}

/// Adds why a case did not pass, with which its element ends.
fn add_problem(told: &mut Text, before: &[u8], why: &[u8]) -> Result<(), Memory>
    ensures { OnOk result (told.new ≡ told.old ++ xml_problem before.now why.now) }
{
    add_text(told, before, why)?;
    told.add(b"/></testcase>\n")
}

/// Adds what came of a case, with which its element ends.
fn add_outcome(told: &mut Text, row: &Row) -> Result<(), Memory>
    ensures { OnOk result (told.new ≡ told.old ++ xml_outcome row.now.outcome row.now.why.items) }
{
    match row.outcome {
        Outcome::Passed => told.add(b"/>\n"),
        Outcome::Failed => add_problem(told, b"><failure message=\"", &row.why),
        Outcome::Broken => add_problem(told, b"><error message=\"", &row.why),
    }
}

/// Adds the element of a case.
fn add_case(told: &mut Text, suite: &[u8], row: &Row) -> Result<(), Memory>
    ensures { OnOk result (told.new ≡ told.old ++ xml_case suite.now (row_of row.now)) }
{
    add_text(told, b"<testcase classname=\"", suite)?;
    add_text(told, b" name=\"", &row.title)?;
    add_outcome(told, row)
}

/// Adds the elements of all cases.
fn add_cases(told: &mut Text, suite: &[u8], rows: &[Row]) -> Result<(), Memory>
    ensures { OnOk result (told.new ≡ told.old ++ flat_map (xml_case suite.now) (map row_of rows.now)) }
{
    for row in rows {
        add_case(told, suite, row)?;
    }
    Ok(())
}

/// Adds the counts of rows, with which an element's head ends.
fn add_count_line(told: &mut Text, rows: &[Row]) -> Result<(), Memory>
    ensures { OnOk result (told.new ≡ told.old ++ count_line (map row_of rows.now)) }
{
    add_counts(told, rows)?;
    told.add(b">\n")
}

/// Adds what stands before the suite.
fn add_first(told: &mut Text, rows: &[Row]) -> Result<(), Memory>
    ensures { OnOk result (told.new ≡ told.old ++ xml_head (map row_of rows.now)) }
{
    told.add(b"<?xml version=\"1.0\" encoding=\"UTF-8\"?>\n<testsuites")?;
    add_count_line(told, rows)
}

/// Adds what stands before the cases of a suite.
fn add_suite(told: &mut Text, suite: &[u8], rows: &[Row]) -> Result<(), Memory>
    ensures { OnOk result (told.new ≡ told.old ++ suite_head suite.now (map row_of rows.now)) }
{
    add_text(told, b"<testsuite name=\"", suite)?;
    add_count_line(told, rows)
}

/// Adds what stands before the cases.
fn add_head(told: &mut Text, suite: &[u8], rows: &[Row]) -> Result<(), Memory>
    ensures { OnOk result (told.new ≡ told.old ++ (xml_head (map row_of rows.now) ++ suite_head suite.now (map row_of rows.now))) }
{
    add_first(told, rows)?;
    add_suite(told, suite, rows)
}

/// The report of cases in the XML of JUnit, as one suite with a name.
pub fn junit_text(alloc: Global, suite: &[u8], rows: &[Row]) -> Result<Vec<u8>, Memory>
    ensures { IfOk result (λ told. told.items ≡ junit_report suite.now (map row_of rows.now)) }
{
    let mut told = Text::new(alloc);
    add_head(&mut told, suite, rows)?;
    add_cases(&mut told, suite, rows)?;
    told.add(b"</testsuite>\n</testsuites>\n")?;
    Ok(told.into_bytes())
}
