ghost use Rattle.std.specs.Prelude.{◌≡◌, ◌≤◌, ◌∷◌, IfOk, map, string_bytes, vec_len};
ghost use Rattle.osvectors_cases.specs.Cases.{LineSays, case_in, is_remark, said_by, said_of};
ghost use Rattle.osvectors_cases.specs.Wanted.{wanted_in as wanted_text};

use crate::wanted::{Wanted, wanted_in};
use os_io::Memory;
use os_serve_jobs::words_of;
use std::alloc::Global;

/// The byte that begins a remark.
const REMARK: u8 = b'#';

/// How many words a case has before its options: a program, an input and a wanted output.
const NAMES: usize = 3;

/// A case: a run of a program over an input, and the output that it should have.
#[derive(Debug, Drop)]
pub struct Case {
    /// The name of the program's file.
    pub program: String,
    /// The name of the input's file.
    pub input: String,
    /// The output that is wanted.
    pub wanted: Wanted,
    /// The words that follow, which `osrun run` takes as its options.
    pub options: Vec<String>,
}

/// What a line of a file of cases says.
#[derive(Debug, Drop)]
pub enum CaseLine {
    /// Nothing: it has no words, or is a remark.
    Nothing,
    /// A case.
    Case(Case),
    /// Something that isn't understood.
    Unknown,
}

/// Whether a word begins a remark.
fn is_remark(word: &str) -> bool
    ensures { result ≡ is_remark word.now }
{
    word.as_bytes().first() == Some(&REMARK)
}

/// The case of these words, if they are one.
fn case_in(mut words: Vec<String>) -> CaseLine
    ensures { said_of result ≡ case_in (map string_bytes words.items) }
{
    if words.len() < NAMES {
        return CaseLine::Unknown;
    }
    let program = words.remove(0);
    let input = words.remove(0);
    let word = words.remove(0);
    case_with(program, input, word, words)
}

/// The case of these names and options, if the word wants an output.
fn case_with(program: String, input: String, word: String, options: Vec<String>) -> CaseLine
    ensures { said_of result ≡ case_in (string_bytes program ∷ string_bytes input ∷ string_bytes word ∷ map string_bytes options.items) }
{
    match wanted_in(word) {
        Some(wanted) => CaseLine::Case(Case {
            program,
            input,
            wanted,
            options,
        }),
        None => CaseLine::Unknown,
    }
}

/// What words say.
fn said_by(words: Vec<String>) -> CaseLine
    ensures { said_of result ≡ said_by (map string_bytes words.items) }
{
    let Some(first) = words.first() else {
        return CaseLine::Nothing;
    };
    if is_remark(first.as_str()) {
        return CaseLine::Nothing;
    }
    case_in(words)
}

/// What a line says, which is given without its line feed.
pub fn case_in_line(alloc: Global, line: &[u8]) -> Result<CaseLine, Memory>
    ensures { IfOk result (λ said. LineSays line.now (said_of said)) }
{
    match words_of(alloc, line)? {
        Some(words) => Ok(said_by(words)),
        None => Ok(CaseLine::Unknown),
    }
}
