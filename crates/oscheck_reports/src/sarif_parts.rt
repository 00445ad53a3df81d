//! The parts of a value of SARIF, from the inside.

ghost use Rattle.std.specs.Prelude.{◌≡◌, ◌++◌, IfOk, codes, string_bytes};
ghost use Rattle.serde_json.specs.View.{view};
ghost use Rattle.oscheck_reports.specs.Notes.{note_text};
ghost use Rattle.oscheck_reports.specs.Sarif.{finding_value, location, message, note_level, note_value, region, rule_value};

use crate::check::Check;
use crate::finding::{Finding, Place};
use crate::note::{Note, severity_word};
use serde_json::{Value, json};
use std::alloc::{AllocError, Global};

/// A text that is shown.
fn message(alloc: Global, text: &str) -> Result<Value, AllocError>
    ensures { IfOk result (λ value. view value ≡ message text.now) }
{
    json!(in alloc; {"text": text})
}

/// What is known of a check.
pub(crate) fn rule_value(alloc: Global, check: Check) -> Result<Value, AllocError>
    ensures { IfOk result (λ value. view value ≡ rule_value check) }
{
    let summary = message(alloc, check.summary())?;
    json!(in alloc; {"id": check.name(), "shortDescription": summary})
}

/// A place in its file.
fn region(alloc: Global, place: Place) -> Result<Value, AllocError>
    ensures { IfOk result (λ value. view value ≡ region place) }
{
    json!(in alloc; {"startLine": place.line(), "startColumn": place.character()})
}

/// A place in a file.
fn location(alloc: Global, uri: &str, place: Place) -> Result<Value, AllocError>
    ensures { IfOk result (λ value. view value ≡ location uri.now place) }
{
    let region = region(alloc, place)?;
    json!(in alloc; {"physicalLocation": {"artifactLocation": {"uri": uri}, "region": region}})
}

/// A finding in a file.
pub(crate) fn finding_value(
    alloc: Global,
    uri: &str,
    finding: &Finding,
) -> Result<Value, AllocError>
    ensures { IfOk result (λ value. view value ≡ finding_value uri.now finding.now) }
{
    let message = message(alloc, finding.sentence.as_str())?;
    let location = location(alloc, uri, finding.place)?;
    let check = finding.check;
    json!(in alloc; {
        "ruleId": check.name(),
        "level": severity_word(check.severity()),
        "message": message,
        "locations": [location]
    })
}

/// How bad a note is.
fn note_level(note: Note) -> &'static str
    ensures { result.now ≡ note_level note }
{
    if note.is_failure() { "error" } else { "note" }
}

/// A note behind the name of its file.
fn named(alloc: Global, name: &str, note: Note) -> Result<String, AllocError>
    ensures { IfOk result (λ told. string_bytes told ≡ name.now ++ codes ": " ++ note_text note) }
{
    let sentence = note.sentence(alloc)?;
    let mut told = String::from_str(alloc, name)?;
    told.push_str(": ")?;
    told.push_str(sentence.as_str())?;
    Ok(told)
}

/// A note on a file.
pub(crate) fn note_value(alloc: Global, name: &str, note: Note) -> Result<Value, AllocError>
    ensures { IfOk result (λ value. view value ≡ note_value name.now note) }
{
    let told = named(alloc, name, note)?;
    let message = message(alloc, told.as_str())?;
    json!(in alloc; {"level": note_level(note), "message": message})
}
