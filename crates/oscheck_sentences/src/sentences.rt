//! What each rule and each fault says to who wrote the text: what is wrong, and what to do.

use crate::at::At;
use crate::library::of_library;
use crate::name_uses::Meant;
use crate::numbers::of_digits;
use crate::word::Word;
use crate::wrong_kind::of_wrong_kind;
use crate::wrong_size::of_wrong_size;
use os_ast::Rule;
use os_lexer::names::MAIN;
use os_lexer::{Fault, Kind, Punct};
use std::io;

/// A sentence about a word, which stands between its two parts.
#[derive(Clone, Copy)]
pub struct Sentence {
    before: &'static str,
    /// Whether the sentence names the word.
    is_told: bool,
    after: &'static str,
}

impl Sentence {
    /// Writes the sentence about a word.
    pub fn write(&self, out: &mut impl io::Write, word: Word<'_>) -> io::Result<()> {
        let Sentence {
            before,
            is_told,
            after,
        } = *self;
        write!(out, "{before}")?;
        if is_told {
            word.write(out)?;
        }
        write!(out, "{after}")
    }
}

/// A sentence that begins with its word.
pub(crate) const fn of(after: &'static str) -> Sentence {
    Sentence {
        before: "",
        is_told: true,
        after,
    }
}

/// A sentence that tells no word.
pub(crate) const fn plain(before: &'static str) -> Sentence {
    Sentence {
        before,
        is_told: false,
        after: "",
    }
}

/// What is said of a name without a declaration.
fn unknown(at: &At<'_>) -> Sentence {
    if let Word::Spelled(name) = at.word {
        if let Some(after) = of_library(name) {
            return of(after);
        }
    }
    match at.usage().meant {
        Meant::Itself if at.kind() == Some(Kind::Name(MAIN)) => of(
            " is the control program, and nothing calls it: what is to be done again stands in a loop",
        ),
        Meant::Itself if at.kind_behind(1) != Some(Kind::Punct(Punct::OpenParen)) => of(
            " is the name of this function, and no variable: what it gives stands behind return",
        ),
        Meant::Itself => of(
            " calls itself, and there is no recursion: write a loop, with an array for what is still to be done",
        ),
        Meant::Later => of(
            " is a function that stands further down: move it up, before what calls it",
        ),
        _ => of(" isn't declared here: declare it before, in a scope that is still open"),
    }
}

/// What is said of a misplaced pragma, or of a misplaced stream.
fn misplaced(kind: Option<Kind>) -> Sentence {
    match kind {
        Some(Kind::PragmaStart) => {
            plain("a pragma outside main or inside a task: move it into main, outside its tasks")
        }
        _ => of(" is a stream that isn't declared in the outermost block of main: move it there"),
    }
}

/// The sentence for a rule that a token violates.
pub fn of_rule(rule: Rule, at: &At<'_>) -> Sentence {
    match rule {
        Rule::Unknown => unknown(at),
        Rule::WrongKind => of_wrong_kind(at),
        Rule::DeclaredTwice => of(
            " is declared already in this scope: give it another name, or a block of its own",
        ),
        Rule::ArgumentCount => of(
            " is called with another number of arguments than it has parameters: pass as many",
        ),
        Rule::FixedChanged => of(
            " can't be changed, being an input item, a constant, osin_len or a stream: change a variable or an output item",
        ),
        Rule::WrongSize => of_wrong_size(at),
        Rule::OutsideLoop => of(
            " stands outside a loop of the same function or task: put it into a loop of its own body; no task ends a loop of main",
        ),
        Rule::Misplaced => misplaced(at.kind()),
        Rule::ReturnInTask => plain(
            "return in a task: assign to an output item, and put the rest behind else",
        ),
        Rule::MisplacedStream => of(
            " is a stream, which has no value: read it by a task with an input item",
        ),
        Rule::WrongEnd => of(
            " stands at the wrong end, since osin is read and osout is written: turn the item round, or use another stream",
        ),
        Rule::ListedTwice => of(
            " stands twice in the clauses of a task: use a window or scalar for each item",
        ),
        Rule::TaskLimit => plain(
            "a task with more than 8 items or more than 64 captured scalars: use a window for several elements",
        ),
        Rule::NoMain => plain(
            "no function main of type int without parameters: write int main(void)",
        ),
        Rule::MisplacedWindow => of(
            " is a window outside the items of a task: name it in the body of a task whose clauses have it; main sees no elements",
        ),
    }
}

/// The byte of some bytes at a place, or a blank behind them.
fn byte_at(bytes: &[u8], place: usize) -> u8 {
    match bytes.get(place) {
        Some(byte) => *byte,
        None => b' ',
    }
}

/// Whether a `#` and blanks stand before a word that begins so.
fn is_directive(bytes: &[u8], word: &str) -> bool {
    match bytes.trim_ascii_end().strip_suffix(word.as_bytes()) {
        Some(front) => matches!(front.trim_ascii_end(), [b'#']),
        None => false,
    }
}

/// What is said of a byte or of a run of characters that begins no token.
fn of_bytes(bytes: &[u8]) -> Sentence {
    match byte_at(bytes, 0) {
        b'"' => plain(
            "there are no strings: what a program writes goes through osout, a number for each byte, and a table is an array that is filled",
        ),
        b'\'' => plain("there are no characters: write the number of the byte, as 65 for A"),
        b'.' => plain("there are no fractions and no members: a number is whole"),
        b'#' if is_directive(bytes, "define") => {
            plain("there is no #define: write const int NAME = NUMBER;")
        }
        b'#' => plain(
            "there are no directives but #include, which is passed over, and #pragma, each at the front of its line",
        ),
        b'\\' => plain("a backslash stands at the end of a line alone, with no blank behind it"),
        b'0'..=b'9' => of_digits(bytes),
        _ => of(" begins no token: take it out"),
    }
}

/// What is said of a number that fits no type that it may have.
fn of_number(bytes: &[u8]) -> Sentence {
    match bytes {
        [b'0', ..] | [.., b'u' | b'U'] => plain("a number above 4294967295: use a smaller one"),
        _ => plain(
            "a number above 2147483647: use a smaller one, or write u behind it, up to 4294967295",
        ),
    }
}

/// What is said of the first fault of a text, by what it is and its bytes.
pub fn of_fault(fault: Fault, bytes: &[u8]) -> Sentence {
    match fault {
        Fault::BadByte => of_bytes(bytes),
        Fault::OpenComment => plain("a comment that is never closed: end it by */"),
        Fault::BigNumber => of_number(bytes),
    }
}
