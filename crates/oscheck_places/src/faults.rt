//! Where the first fault of a text stands in its line. The lexer tells the line alone, so it is asked again, of the fronts of the
//! text that end at a byte of that line where a fault could begin.

ghost use Rattle.std.specs.Prelude.{◌≤◌, ◌<◌, length, IfOk, IfSome};
ghost use Rattle.os_lexer.specs.Limits.{text_limit};

use crate::spot::Spot;
use os_io::Memory;
use os_lexer::{
    Class, Fault, LexError, blanks_end, class_of, comment_end, is_word_byte, lex, run_end,
    single_mark,
};
use std::alloc::Global;

/// How many bytes of a line are tried at most.
const MOST: usize = 64;

/// What the lexer says of a text.
#[derive(Clone, Copy, PartialEq, Eq)]
enum Answer {
    Tokens,
    Fault(Fault),
}

/// What the lexer says of the front of a text.
fn says(alloc: Global, text: &[u8], end: usize) -> Result<Answer, Memory>
    requires { length text.now ≤ text_limit }
{
    match lex(alloc, &text[..end.min(text.len())]) {
        Ok(_) => Ok(Answer::Tokens),
        Err(LexError::BadByte { .. }) => Ok(Answer::Fault(Fault::BadByte)),
        Err(LexError::OpenComment { .. }) => Ok(Answer::Fault(Fault::OpenComment)),
        Err(LexError::BigNumber { .. }) => Ok(Answer::Fault(Fault::BigNumber)),
        Err(LexError::Memory) => Err(Memory),
    }
}

/// Whether a byte begins a mark, is white or goes on with a word, so that no fault begins there.
fn is_harmless(byte: u8) -> bool {
    matches!(class_of(byte), Class::White | Class::Letter | Class::Digit)
        || single_mark(byte).is_some()
}

/// Where a fault ends that would begin at a point; none where it could not begin there.
fn fault_end(text: &[u8], fault: Fault, point: usize) -> Option<usize>
    requires { point < length text.now }
{
    let byte = text[point];
    let next = point + 1;
    if fault == Fault::OpenComment {
        return open_comment_end(text, point);
    }
    if byte.is_ascii_digit() {
        let begins = point == 0 || !is_word_byte(text[point - 1]);
        return if begins {
            Some(run_end(text, point))
        } else {
            None
        };
    }
    if fault == Fault::BadByte && byte == b'#' {
        return Some(run_end(text, blanks_end(text, next)));
    }
    if fault == Fault::BadByte && !is_harmless(byte) {
        Some(next)
    } else {
        None
    }
}

/// Where the `/*` at a point ends that no `*/` closes; none where there is none.
fn open_comment_end(text: &[u8], point: usize) -> Option<usize>
    requires { point < length text.now }
{
    let next = point + 1;
    if text[point] == b'/'
        && next < text.len()
        && text[next] == b'*'
        && comment_end(text, next + 1) == text.len()
    {
        Some(next + 1)
    } else {
        None
    }
}

/// Whether a fault begins at a point: the front of the text before it has tokens, and the front up to its end has
/// the fault.
fn begins_at(
    alloc: Global,
    text: &[u8],
    fault: Fault,
    point: usize,
    end: usize,
) -> Result<bool, Memory>
    requires { length text.now ≤ text_limit }
{
    Ok(
        says(alloc, text, point)? == Answer::Tokens
            && says(alloc, text, end)? == Answer::Fault(fault),
    )
}

/// Where a line begins, by its number.
fn begin_of(text: &[u8], line: u32) -> usize {
    let mut left = line.saturating_sub(1);
    let mut point: usize = 0;
    for byte in text {
        if left == 0 {
            return point;
        }
        if *byte == b'\n' {
            left -= 1;
        }
        point = point.saturating_add(1);
    }
    point
}

/// The bytes of the first fault of a text, by what it is and its line. None where it isn't found among the first bytes of the line at
/// which a fault could begin.
pub fn fault_spot(
    alloc: Global,
    text: &[u8],
    fault: Fault,
    line: u32,
) -> Result<Option<Spot>, Memory>
    requires { length text.now ≤ text_limit }
    ensures within { IfOk result (λ found. IfSome found (λ spot. spot.start ≤ length text.now)) }
{
    let begin = begin_of(text, line);
    let mut tried: usize = 0;
    for point in begin..text.len() {
        if text[point] == b'\n' || tried >= MOST {
            return Ok(None);
        }
        if let Some(end) = fault_end(text, fault, point) {
            tried += 1;
            if begins_at(alloc, text, fault, point, end)? {
                return Ok(Some(Spot {
                    line,
                    start: point,
                    end,
                }));
            }
        }
    }
    Ok(None)
}
