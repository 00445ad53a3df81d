//! Reports as one text of SARIF.

ghost use Rattle.std.specs.Prelude.{◌≡◌, ◌++◌, ◌∷◌, [], IfOk, OnOk, map, not, string_bytes};
ghost use Rattle.std.specs.List.{flat_map, list_any};
ghost use Rattle.serde_json.specs.Data.{array};
ghost use Rattle.serde_json.specs.View.{items_of, view};
ghost use Rattle.oscheck_reports.specs.Checks.{all_checks};
ghost use Rattle.oscheck_reports.specs.Sarif.{finding_value, finding_values, note_values, rule_value, told_values};
ghost use Rattle.oscheck_reports.specs.Sarif.{has_failed, invocation, log, run_value, sarif_form, tool};

use crate::check_words::all_checks;
use crate::finding::Finding;
use crate::note::Note;
use crate::report::Report;
use crate::sarif_parts::{finding_value, note_value, rule_value};
use crate::uri::uri_of;
use os_io::Memory;
use serde_json::{Value, json};
use std::alloc::{AllocError, Global};

/// Adds the findings of a file.
fn add_findings(
    values: &mut Vec<Value>,
    alloc: Global,
    uri: &str,
    findings: &[Finding],
) -> Result<(), AllocError>
    ensures { OnOk result (map view values.new.items ≡ map view values.old.items ++ map (finding_value uri.now) findings.now) }
{
    for number in 0..findings.len() {
        values.push(finding_value(alloc, uri, &findings[number])?)?;
    }
    Ok(())
}

/// Adds the findings in the file of a report.
fn add_report(values: &mut Vec<Value>, alloc: Global, report: &Report) -> Result<(), AllocError>
    ensures { OnOk result (map view values.new.items ≡ map view values.old.items ++ finding_values report.now) }
{
    let uri = uri_of(alloc, report.name.as_str())?;
    add_findings(values, alloc, uri.as_str(), &report.findings)
}

/// The findings of all files.
fn results(alloc: Global, reports: &[Report]) -> Result<Value, AllocError>
    ensures { IfOk result (λ value. view value ≡ array (items_of (flat_map finding_values reports.now))) }
{
    let mut values = Vec::new(alloc);
    for number in 0..reports.len() {
        add_report(&mut values, alloc, &reports[number])?;
    }
    Ok(Value::Array(values))
}

/// Adds a note on a file, where it doesn't tell that all is well.
fn add_note(
    values: &mut Vec<Value>,
    alloc: Global,
    name: &str,
    note: Note,
) -> Result<(), AllocError>
    ensures { OnOk result (map view values.new.items ≡ map view values.old.items ++ told_values name.now note) }
{
    if note.is_accepted() {
        return Ok(());
    }
    values.push(note_value(alloc, name, note)?)?;
    Ok(())
}

/// Adds the notes on a file.
fn add_notes(values: &mut Vec<Value>, alloc: Global, report: &Report) -> Result<(), AllocError>
    ensures { OnOk result (map view values.new.items ≡ map view values.old.items ++ note_values report.now) }
{
    let notes = &report.notes;
    for number in 0..notes.len() {
        add_note(values, alloc, report.name.as_str(), notes[number])?;
    }
    Ok(())
}

/// The notes on all files.
fn notifications(alloc: Global, reports: &[Report]) -> Result<Value, AllocError>
    ensures { IfOk result (λ value. view value ≡ array (items_of (flat_map note_values reports.now))) }
{
    let mut values = Vec::new(alloc);
    for number in 0..reports.len() {
        add_notes(&mut values, alloc, &reports[number])?;
    }
    Ok(Value::Array(values))
}

/// Whether a file was not judged.
fn has_failed(report: &Report) -> bool
    ensures { result ≡ has_failed report.now }
{
    report.notes.iter().any(|note| note.is_failure())
}

/// Whether a file of several was not judged.
fn have_failed(reports: &[Report]) -> bool
    ensures { result ≡ list_any has_failed reports.now }
{
    reports.iter().any(|report| has_failed(report))
}

/// How the call went: whether each file was judged, and the notes on them.
fn invocation(alloc: Global, reports: &[Report]) -> Result<Value, AllocError>
    ensures { IfOk result (λ value. view value ≡ invocation reports.now) }
{
    let notes = notifications(alloc, reports)?;
    json!(in alloc; {"executionSuccessful": !have_failed(reports), "toolExecutionNotifications": notes})
}

/// What is known of all checks.
fn rules(alloc: Global) -> Result<Value, AllocError>
    ensures { IfOk result (λ value. view value ≡ array (items_of (map rule_value all_checks))) }
{
    let mut values = Vec::new(alloc);
    for check in all_checks() {
        values.push(rule_value(alloc, *check)?)?;
    }
    Ok(Value::Array(values))
}

/// What found it all.
fn tool(alloc: Global, version: &str) -> Result<Value, AllocError>
    ensures { IfOk result (λ value. view value ≡ tool version.now) }
{
    let rules = rules(alloc)?;
    json!(in alloc; {"driver": {"name": "oscheck", "version": version, "rules": rules}})
}

/// The run, by its parts.
fn run_value(alloc: Global, version: &str, reports: &[Report]) -> Result<Value, AllocError>
    ensures { IfOk result (λ value. view value ≡ run_value version.now reports.now) }
{
    let tool = tool(alloc, version)?;
    let invocation = invocation(alloc, reports)?;
    let results = results(alloc, reports)?;
    json!(in alloc; {
        "tool": tool,
        "invocations": [invocation],
        "columnKind": "unicodeCodePoints",
        "results": results
    })
}

/// The whole value.
fn log(alloc: Global, version: &str, reports: &[Report]) -> Result<Value, AllocError>
    ensures { IfOk result (λ value. view value ≡ log version.now reports.now) }
{
    let run = run_value(alloc, version, reports)?;
    json!(in alloc; {
        "$schema": "https://json.schemastore.org/sarif-2.1.0.json",
        "version": "2.1.0",
        "runs": [run]
    })
}

/// The reports of several files as one text of SARIF 2.1.0, with a line feed at its end. The version is that of the program.
pub(crate) fn sarif_form(
    alloc: Global,
    version: &str,
    reports: &[Report],
) -> Result<Vec<u8>, Memory>
    ensures { IfOk result (λ text. text.items ≡ sarif_form version.now reports.now) }
{
    let value = log(alloc, version, reports)?;
    let mut text = value.to_vec(alloc)?;
    text.extend_from_slice(b"\n")?;
    Ok(text)
}
