ghost use Rattle.std.specs.Prelude.{◌≡◌, ◌<◌, ◌≤◌, ◌+◌, ◌∷◌, ◌++◌, [], IfOk, MatchOption, OnErr, drop, length, take, vec_len};
ghost use Rattle.os_serve_jobs.specs.Cutting.{IsCut};
ghost use Rattle.os_serve_jobs.specs.Lines.{IsLine};
ghost use Rattle.os_serve_jobs.specs.Reading.{waiting_lines};

use os_io::Memory;
use std::alloc::Global;
use std::mem;

/// The byte that ends a line.
const LINE_FEED: u8 = b'\n';

/// Where the first line feed stands.
fn first_feed(bytes: &[u8]) -> Option<usize>
    ensures { MatchOption result (IsLine bytes.now)
        (λ n. (n < length bytes.now) × IsLine (take n bytes.now) × (drop n bytes.now ≡ 10 ∷ drop (n + 1) bytes.now)) }
{
    for (n, byte) in bytes.iter().enumerate() {
        if *byte == LINE_FEED {
            return Some(n);
        }
    }
    None
}

/// Adds the bytes of a piece up to its first line feed to the line that has begun, which then waits, and says how many bytes that
/// were; where it has no line feed, it adds them all. `Memory` leaves the line and those that wait as they were.
pub(crate) fn cut(
    alloc: Global,
    piece: &[u8],
    line: &mut Vec<u8>,
    waiting: &mut Vec<Vec<u8>>,
) -> Result<usize, Memory>
    ensures cut { IfOk result (λ count. IsCut (waiting_lines waiting.old.items) (waiting_lines waiting.new.items) line.old.items line.new.items
        piece.now count) }
    ensures some { IfOk result (λ count. 0 < length piece.now → 0 < count) }
    ensures one { vec_len waiting.new ≤ vec_len waiting.old + 1 }
    ensures line { OnErr result (line.new.items ≡ line.old.items) }
    ensures waiting { OnErr result (waiting.new.items ≡ waiting.old.items) }
{
    let Some(feed) = first_feed(piece) else {
        line.extend_from_slice(piece)?;
        return Ok(piece.len());
    };
    end_line(alloc, &piece[..feed], line, waiting)?;
    Ok(feed + 1)
}

/// Adds the last bytes to the line that has begun, which then waits. `Memory` leaves both as they were.
pub(crate) fn end_line(
    alloc: Global,
    last: &[u8],
    line: &mut Vec<u8>,
    waiting: &mut Vec<Vec<u8>>,
) -> Result<(), Memory>
    ensures waits { IfOk result (λ _. waiting_lines waiting.new.items ≡ waiting_lines waiting.old.items ++ (line.old.items ++ last.now) ∷ []) }
    ensures begun { IfOk result (λ _. line.new.items ≡ []) }
    ensures one { vec_len waiting.new ≤ vec_len waiting.old + 1 }
    ensures line { OnErr result (line.new.items ≡ line.old.items) }
    ensures waiting { OnErr result (waiting.new.items ≡ waiting.old.items) }
{
    waiting.reserve(1)?;
    line.extend_from_slice(last)?;
    waiting.push_reserved(mem::replace(line, Vec::new(alloc)));
    Ok(())
}
