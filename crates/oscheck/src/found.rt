//! A finding, by the bytes of the text that it is about.

ghost use Rattle.std.specs.Prelude.{◌≡◌, IfOk};
ghost use Rattle.oscheck.specs.Findings.{IsPlaceOf};
ghost use Rattle.oscheck_reports.specs.declared.finding.Place.TheVariants as places;

use os_io::Memory;
use oscheck_places::{Spot, character_column, column, excerpt};
use oscheck_reports::{Check, Finding, Place};
use std::alloc::Global;

/// Where some bytes of a text stand.
fn place_of(text: &[u8], spot: Spot) -> Place
    ensures { IsPlaceOf text.now spot.line spot.start result }
{
    if spot.start > text.len() {
        return Place::Line(spot.line);
    }
    Place::Column {
        line: spot.line,
        byte: column(text, spot.start),
        character: character_column(text, spot.start),
    }
}

/// The line of some bytes of a text with a mark under them; nothing where they stand behind it.
fn shown(alloc: Global, text: &[u8], spot: Spot) -> Result<Vec<u8>, Memory> {
    if spot.start > text.len() {
        return Ok(Vec::new(alloc));
    }
    excerpt(alloc, text, spot)
}

/// What was found at some bytes of a text.
pub(crate) fn found_at(
    alloc: Global,
    text: &[u8],
    check: Check,
    spot: Spot,
    sentence: &[u8],
) -> Result<Finding, Memory>
    ensures check { IfOk result (λ finding. finding.check ≡ check) }
    ensures place { IfOk result (λ finding. IsPlaceOf text.now spot.line spot.start finding.place) }
{
    let sentence = String::from_utf8_lossy(alloc, sentence)?;
    let excerpt = shown(alloc, text, spot)?;
    Ok(Finding {
        check,
        place: place_of(text, spot),
        sentence,
        excerpt,
    })
}

/// What was found of a file or of a line, and not of some bytes in it.
pub(crate) fn found_of(
    alloc: Global,
    check: Check,
    place: Place,
    sentence: &[u8],
) -> Result<Finding, Memory>
    ensures check { IfOk result (λ finding. finding.check ≡ check) }
    ensures place { IfOk result (λ finding. finding.place ≡ place) }
{
    let sentence = String::from_utf8_lossy(alloc, sentence)?;
    Ok(Finding {
        check,
        place,
        sentence,
        excerpt: Vec::new(alloc),
    })
}
