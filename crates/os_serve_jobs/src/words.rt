ghost use Rattle.std.specs.Prelude.{◌≡◌, ◌<◌, ◌≤◌, All, IfOk, MatchOption, drop, length, map, slice_index, string_bytes, take, false, true};
ghost use Rattle.os_serve_jobs.specs.Words.{IsText, is_blank, line_words};

use os_io::Memory;
use std::alloc::Global;
use std::str;

/// Whether a byte parts words.
fn is_blank(byte: u8) -> bool
    ensures { result ≡ is_blank byte }
{
    matches!(byte, b' ' | b'\t' | b'\r' | b'\n')
}

/// How many bytes stand before the first blank.
fn front_len(bytes: &[u8]) -> usize
    ensures within { result ≤ length bytes.now }
    ensures none { All (λ byte. is_blank byte ≡ false) (take result bytes.now) }
    ensures blank { result < length bytes.now → is_blank (slice_index bytes.now result) ≡ true }
{
    for (n, byte) in bytes.iter().enumerate() {
        if is_blank(*byte) {
            return n;
        }
    }
    bytes.len()
}

/// The bytes from a place on.
fn rest_of(bytes: &[u8], next: usize) -> &[u8]
    requires { next ≤ length bytes.now }
    ensures { result.now ≡ drop next bytes.now }
{
    &bytes[next..]
}

/// The first `count` bytes.
fn front_of(bytes: &[u8], count: usize) -> &[u8]
    requires { count ≤ length bytes.now }
    ensures { result.now ≡ take count bytes.now }
{
    &bytes[..count]
}

/// The words of a line, unless it isn't text.
pub fn words_of(alloc: Global, line: &[u8]) -> Result<Option<Vec<String>>, Memory>
    ensures { IfOk result (λ found. MatchOption found
        (IsText line.now → ⊥)
        (λ words. IsText line.now × (map string_bytes words.items ≡ line_words line.now))) }
{
    let mut words = Vec::new(alloc);
    let mut next = 0;
    while next < line.len() {
        let rest = rest_of(line, next);
        let count = front_len(rest);
        if count == 0 {
            next += 1;
            continue;
        }
        let Ok(word) = str::from_utf8(front_of(rest, count)) else {
            return Ok(None);
        };
        words.push(String::from_str(alloc, word)?)?;
        next += count;
    }
    Ok(Some(words))
}
