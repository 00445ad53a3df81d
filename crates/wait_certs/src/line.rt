ghost use Rattle.std.specs.Prelude.{◌≡◌, ◌++◌, [], IfOk, string_bytes};
ghost use Rattle.std.specs.List.{flat_map};
ghost use Rattle.std.specs.Option.{option_map_or};
ghost use Rattle.os_io.specs.Lines.{field};
ghost use Rattle.wait_certs.specs.Finding.{chain_line, finding_line, stop_text};

use crate::finding::Finding;
use collector::Missing;
use os_io::Memory;
use std::alloc::Global;

/// The line that tells what was found of an activation, with its line feed.
pub fn finding_line(alloc: Global, activation: u32, finding: &Finding) -> Result<String, Memory>
    ensures { IfOk result (λ text. string_bytes text ≡ finding_line activation finding.now) }
{
    match finding {
        Finding::Absent => Ok(format!(in alloc; "no activation {activation}\n")?),
        Finding::Ended => Ok(format!(in alloc; "not starved {activation}\n")?),
        Finding::Starved { members, last } => chain_line(alloc, members.as_slice(), *last),
    }
}

/// The line of a walk.
fn chain_line(alloc: Global, members: &[u32], last: Option<Missing>) -> Result<String, Memory>
    ensures { IfOk result (λ text. string_bytes text ≡ chain_line members.now last) }
{
    let mut text = String::new(alloc);
    text.push_str("chain")?;
    add_members(&mut text, members)?;
    add_stop(&mut text, last)?;
    text.push_str("\n")?;
    Ok(text)
}

/// Adds the members of a walk, each behind a space.
fn add_members(text: &mut String, members: &[u32]) -> Result<(), Memory>
    ensures { IfOk result (λ _. string_bytes text.new ≡ string_bytes text.old ++ flat_map field members.now) }
{
    for member in members {
        add_member(text, *member)?;
    }
    Ok(())
}

/// Adds a member of a walk.
fn add_member(text: &mut String, member: u32) -> Result<(), Memory>
    ensures { IfOk result (λ _. string_bytes text.new ≡ string_bytes text.old ++ field member) }
{
    write!(text, " {member}")?;
    Ok(())
}

/// Adds what the last member of a walk misses.
fn add_stop(text: &mut String, last: Option<Missing>) -> Result<(), Memory>
    ensures { IfOk result (λ _. string_bytes text.new ≡ string_bytes text.old ++ option_map_or stop_text last []) }
{
    match last {
        Some(missing) => add_missing(text, missing),
        None => Ok(()),
    }
}

/// Adds an element that isn't there, by the member that should write it, or else by where it should stand.
fn add_missing(text: &mut String, missing: Missing) -> Result<(), Memory>
    ensures { IfOk result (λ _. string_bytes text.new ≡ string_bytes text.old ++ stop_text missing) }
{
    let Missing {
        stream,
        position,
        producer,
    } = missing;
    match producer {
        Some(member) => write!(text, " back {member}")?,
        None => write!(text, " none stream {stream} position {position}")?,
    }
    Ok(())
}
