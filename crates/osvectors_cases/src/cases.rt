ghost use Rattle.std.specs.Prelude.{◌≡◌, ◌==◌, ◌≢◌, ◌<◌, ◌≤◌, ◌+◌, ◌++◌, All, IfOk, Err, OnOk, false, drop, length, map, slice_index, take, true, ℕ};
ghost use Rattle.os_io.specs.Limits.{read_limit};
ghost use Rattle.osvectors_cases.specs.Cases.{IsFirstUnsaid, LineSays, Said, SayCases, lines_of, none, numbered, numbered_of};
ghost use Rattle.osvectors_cases.specs.declared.cases.CasesError.TheVariants as errors;

use crate::case::{Case, CaseLine, case_in_line};
use os_io::Memory;
use std::alloc::Global;
use thiserror::Error;

/// A case and the number of its line.
#[derive(Debug, Drop)]
pub struct NumberedCase {
    /// The number of the line, counted from 1.
    pub line: u32,
    pub case: Case,
}

/// Why there are no cases.
#[derive(Clone, Copy, Debug, Drop, Error, PartialEq, Eq)]
pub enum CasesError {
    /// The line with this number, counted from 1, isn't understood. It is the first one.
    #[error("line {0} is no case")]
    Line(u32),
    /// Memory could not be had.
    #[error("out of memory")]
    Memory,
}

/// The byte that ends a line.
const LINE_FEED: u8 = b'\n';

/// Whether a byte ends a line.
fn is_line_feed(byte: u8) -> bool
    ensures { result ≡ (byte == 10) }
{
    byte == LINE_FEED
}

/// How many bytes stand before the first line feed.
fn line_len(bytes: &[u8]) -> usize
    ensures within { result ≤ length bytes.now }
    ensures none { All (λ byte. (byte == 10) ≡ false) (take result bytes.now) }
    ensures feed { result < length bytes.now → (slice_index bytes.now result == 10) ≡ true }
{
    for (n, byte) in bytes.iter().enumerate() {
        if is_line_feed(*byte) {
            return n;
        }
    }
    bytes.len()
}

/// The bytes from a place on.
fn rest_of(bytes: &[u8], next: usize) -> &[u8]
    requires { next ≤ length bytes.now }
    ensures { result.now ≡ drop next bytes.now }
{
    &bytes[next..]
}

/// The first `count` bytes.
fn front_of(bytes: &[u8], count: usize) -> &[u8]
    requires { count ≤ length bytes.now }
    ensures { result.now ≡ take count bytes.now }
{
    &bytes[..count]
}

/// Adds the case of the line with a number, if it says one.
fn add_line(
    alloc: Global,
    cases: &mut Vec<NumberedCase>,
    line: &[u8],
    number: u32,
) -> Result<(), CasesError>
    ensures added { OnOk result ((said : Said) × LineSays line.now said × (said ≢ none)
        × (map numbered_of cases.new.items ≡ map numbered_of cases.old.items ++ numbered number said)) }
    ensures unsaid { (n : ℕ) → result ≡ Err (errors.Line n) → (n ≡ number) × LineSays line.now none }
{
    match case_in_line(alloc, line) {
        Ok(CaseLine::Nothing) => Ok(()),
        Ok(CaseLine::Unknown) => Err(CasesError::Line(number)),
        Ok(CaseLine::Case(case)) => {
            let numbered = NumberedCase { line: number, case };
            cases.push(numbered).map_err(|_| CasesError::Memory)
        }
        Err(Memory) => Err(CasesError::Memory),
    }
}

/// The cases of a file, in the order of their lines, or the first line that is none.
pub fn read_cases(alloc: Global, text: &[u8]) -> Result<Vec<NumberedCase>, CasesError>
    requires { length text.now ≤ read_limit }
    ensures cases { IfOk result (λ cases. SayCases 1 (lines_of text.now) (map numbered_of cases.items)) }
    ensures unsaid { (n : ℕ) → result ≡ Err (errors.Line n) → IsFirstUnsaid (lines_of text.now) n }
{
    let mut cases = Vec::new(alloc);
    let mut next = 0;
    let mut number = 0;
    while next <= text.len() {
        let rest = rest_of(text, next);
        let count = line_len(rest);
        number += 1;
        add_line(alloc, &mut cases, front_of(rest, count), number)?;
        next += count + 1;
    }
    Ok(cases)
}
