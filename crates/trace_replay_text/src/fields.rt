//! Numbers at the front of a text, each behind a space.

ghost use Rattle.std.specs.Prelude.{◌≡◌, ◌^◌, ◌<◌, ◌++◌, IfSome, IfNone, IfOk, List, ℕ};
ghost use Rattle.std.specs.List.{flat_map};
ghost use Rattle.trace_replay_text.specs.Fields.{Begins, IsCutAt};
ghost use Rattle.os_io.specs.Lines.{field};
ghost use Rattle.trace_replay_text.specs.Trace.{AreNumbers};

use os_io::{List, Memory, parse_decimal};
use std::alloc::Global;

/// Where a byte stands first, or the end where it stands nowhere.
pub(crate) fn place_of(byte: u8, text: &[u8]) -> usize
    ensures { IsCutAt byte text.now result }
{
    for (place, it) in text.iter().enumerate() {
        if *it == byte {
            return place;
        }
    }
    text.len()
}

/// The number at the front, behind a space, and what stands behind it: nothing, or a further space.
pub(crate) fn first_field(text: &[u8]) -> Option<(u32, &[u8])>
    ensures some { IfSome result (λ read. (read.0 < 2 ^ 32) × (text.now ≡ field read.0 ++ read.1.now)) }
    ensures none { IfNone result ((number : ℕ) (rest : List ℕ) → number < 2 ^ 32 → Begins 32 rest → text.now ≡ field number ++ rest → ⊥) }
    ensures rest { IfSome result (λ read. Begins 32 read.1.now) }
{
    let [b' ', digits @ ..] = text else {
        return None;
    };
    let end = place_of(b' ', digits);
    let Some(number) = parse_decimal(&digits[..end]) else {
        return None;
    };
    Some((number, &digits[end..]))
}

/// The numbers of a text that has nothing else, each behind a space.
pub(crate) fn fields(alloc: Global, text: &[u8]) -> Result<Option<List<u32>>, Memory>
    ensures some { IfOk result (λ read. IfSome read (λ frames. AreNumbers frames × (text.now ≡ flat_map field frames))) }
    ensures none { IfOk result (λ read. IfNone read ((frames : List ℕ) → AreNumbers frames → text.now ≡ flat_map field frames → ⊥)) }
{
    let mut frames = List::new(alloc);
    let mut rest = text;
    while !rest.is_empty() {
        let Some((frame, after)) = first_field(rest) else {
            return Ok(None);
        };
        frames.push(frame)?;
        rest = after;
    }
    Ok(Some(frames))
}
