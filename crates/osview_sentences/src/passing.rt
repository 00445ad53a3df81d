ghost use Rattle.std.specs.Prelude.{◌≡◌, ◌≤◌, ◌++◌, OnOk, find, length};
ghost use Rattle.flow_core_laws.specs.Limits.{activations_limit};
ghost use Rattle.osview_sentences.specs.Contexts.{IsToldRun};
ghost use Rattle.osview_sentences.specs.Passing.{first_passing, more_passing_text, passes, passing_claim, passing_count};
ghost use Rattle.osview_sentences.specs.Passing.{passing_line, passing_line_at, passing_lines};

use crate::amounts::add_window;
use crate::finding::line_of;
use crate::told_run::ToldRun;
use crate::wording::{add_stream, add_who};
use flow_core_laws::{Activation, Claim};
use os_io::Memory;
use osview_text::Text;

/// Whether a claim reads and moves its stream past its window.
fn passes(claim: Claim) -> bool
    ensures { result ≡ passes claim }
{
    !claim.write && claim.horizon < claim.burst
}

/// The first of some claims that does.
fn passing_among(claims: &[Claim]) -> Option<Claim>
    ensures { result ≡ find passes claims.now }
{
    for claim in claims {
        if passes(*claim) {
            return Some(*claim);
        }
    }
    None
}

/// The first claim of an activation that does.
fn passing_claim(activations: &[Activation], frame: u32) -> Option<Claim>
    ensures { result ≡ passing_claim activations.now frame }
{
    match activations.get(frame as usize) {
        Some(activation) => passing_among(activation.claims.as_slice()),
        None => None,
    }
}

/// The first activation with such a claim.
fn first_passing(activations: &[Activation]) -> Option<u32>
    requires { length activations.now ≤ activations_limit }
    ensures { result ≡ first_passing activations.now }
{
    for frame in 0..activations.len() as u32 {
        if passing_claim(activations, frame).is_some() {
            return Some(frame);
        }
    }
    None
}

/// How many activations have such a claim.
fn passing_count(activations: &[Activation]) -> u64
    ensures { result ≡ passing_count activations.now }
{
    let mut count = 0;
    for activation in activations {
        if passing_among(activation.claims.as_slice()).is_some() {
            count += 1;
        }
    }
    count
}

/// Adds how many more activations have such a claim, if any do.
fn add_more_passing(told: &mut Text, more: u64) -> Result<(), Memory>
    ensures { OnOk result (told.new ≡ told.old ++ more_passing_text more) }
{
    if more == 0 {
        return Ok(());
    }
    told.field(b"; likewise ", more)?;
    told.add(b" more")
}

/// Adds the line of the first activation that leaves elements out.
fn add_passing_line(
    told: &mut Text,
    run: &ToldRun<'_>,
    frame: u32,
    claim: Claim,
) -> Result<(), Memory>
    ensures { OnOk result (told.new ≡ told.old
        ++ passing_line run.now.text.now run.now.names.now run.now.lines.now run.now.activations.now frame claim) }
{
    add_who(told, frame, line_of(run.lines, frame))?;
    told.add(b"leaves elements of stream ")?;
    add_stream(told, run.text, run.names, claim.stream)?;
    told.add(b" out: ")?;
    add_window(told, claim)?;
    let count = passing_count(run.activations);
    add_more_passing(told, count.saturating_sub(1))?;
    told.add(b"\n")?;
    Ok(())
}

/// Adds the line of an activation, where it leaves elements out.
fn add_passing_at(told: &mut Text, run: &ToldRun<'_>, frame: u32) -> Result<(), Memory>
    ensures { OnOk result (told.new ≡ told.old
        ++ passing_line_at run.now.text.now run.now.names.now run.now.lines.now run.now.activations.now frame) }
{
    match passing_claim(run.activations, frame) {
        Some(claim) => add_passing_line(told, run, frame, claim),
        None => Ok(()),
    }
}

/// Adds the line that tells of activations whose burst passes their window, if there are any.
pub(crate) fn add_passing(told: &mut Text, run: &ToldRun<'_>) -> Result<(), Memory>
    requires { IsToldRun run.now }
    ensures { OnOk result (told.new ≡ told.old
        ++ passing_lines run.now.text.now run.now.names.now run.now.lines.now run.now.activations.now) }
{
    match first_passing(run.activations) {
        Some(frame) => add_passing_at(told, run, frame),
        None => Ok(()),
    }
}
