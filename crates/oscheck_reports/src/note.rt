ghost use Rattle.std.specs.Prelude.{◌≡◌, IfOk, string_bytes};
ghost use Rattle.oscheck_reports.specs.Notes.{is_accepted, is_failure, note_text, plural, severity_word};
ghost use Rattle.oscheck_reports.specs.declared.note.Note.TheVariants as notes;

use crate::check::Severity;
use itoa::Buffer;
use std::alloc::{AllocError, Global};

/// What is told of a file as a whole.
#[derive(Clone, Copy, Debug, PartialEq, Eq)]
pub enum Note {
    /// There are so many more errors or warnings, which are not among the findings.
    More(Severity, u64),
    /// The program is accepted.
    Accepted,
    /// The program is accepted but for its warnings, which are errors.
    RefusedForWarnings,
    /// The file can't be read.
    Unreadable,
    /// The word that names the file begins as an option does and is none, and the file can't be read.
    NoOption,
    /// The name of the file isn't text, so that it can't be opened.
    NoName,
    /// Memory could not be had.
    NoMemory,
}

impl Note {
    /// Whether it tells why a file was not judged.
    pub(crate) fn is_failure(self) -> bool
        ensures { result ≡ is_failure self }
    {
        match self {
            Note::More(..) | Note::Accepted | Note::RefusedForWarnings => false,
            Note::Unreadable | Note::NoOption | Note::NoName | Note::NoMemory => true,
        }
    }

    /// Whether it tells that all is well.
    pub(crate) fn is_accepted(self) -> bool
        ensures { result ≡ is_accepted self }
    {
        matches!(self, Note::Accepted)
    }

    /// It as a sentence.
    pub(crate) fn sentence(self, alloc: Global) -> Result<String, AllocError>
        ensures { IfOk result (λ told. string_bytes told ≡ note_text self) }
    {
        match self {
            Note::More(worst, count) => more(alloc, worst, count),
            Note::Accepted => String::from_str(alloc, "accepted"),
            Note::RefusedForWarnings => String::from_str(alloc, "refused for its warnings"),
            Note::Unreadable => String::from_str(alloc, "can't be read"),
            Note::NoOption => String::from_str(alloc, "no option, and no file that can be read"),
            Note::NoName => String::from_str(alloc, "its name isn't text"),
            Note::NoMemory => String::from_str(alloc, "memory ran out"),
        }
    }
}

/// The word for how bad a finding is.
pub(crate) fn severity_word(severity: Severity) -> &'static str
    ensures { result.now ≡ severity_word severity }
{
    match severity {
        Severity::Error => "error",
        Severity::Warning => "warning",
    }
}

/// What stands behind the word for some things.
fn plural(count: u64) -> &'static str
    ensures { result.now ≡ plural count }
{
    if count == 1 { "" } else { "s" }
}

/// How many more errors or warnings there are, as a sentence.
fn more(alloc: Global, worst: Severity, count: u64) -> Result<String, AllocError>
    ensures { IfOk result (λ told. string_bytes told ≡ note_text (notes.More worst count)) }
{
    let mut told = String::from_str(alloc, Buffer::new().format(count))?;
    told.push_str(" more ")?;
    told.push_str(severity_word(worst))?;
    told.push_str(plural(count))?;
    Ok(told)
}
