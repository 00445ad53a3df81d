//! What the words before the files ask for.

use oscheck_reports::Format;
use std::io;

/// The version in the file VERSION of the repository.
pub(crate) const VERSION: &str = "1.0.0";

/// What is told where no file is named, or help is asked for.
const HELP: &str = "\
oscheck judges OpenStream programs as a compiler does. Nothing is run.

    oscheck FILE ..              tells of each file that it is accepted, or what is wrong with it, and where
    oscheck --first FILE ..      tells the first error or warning of each file alone
    oscheck --all FILE ..        tells all of them; else it is twenty at most, and how many more there are
    oscheck --werror FILE ..     refuses what is warned of too
    oscheck --format=gcc FILE .. writes a line for each error or warning, as gcc does, for editors
    oscheck --format=sarif FILE ..
                                 writes SARIF 2.1.0, which is JSON; --format=text is the format without the word
    oscheck --complete FILE ..   writes a program for each file: the text itself, or one that begins as it does
    oscheck --help               tells this
    oscheck --version            tells the version

A word before the files that begins with - is an option; a file whose name does is named by ./-name.
The status is 0 where all is well, 1 where a file is refused, and 2 where one couldn't be read or memory ran out.
";

/// A word that is no name of a file.
#[derive(Clone, Copy, PartialEq, Eq)]
pub(crate) enum Request {
    Complete,
    /// Only the first error or warning is told.
    First,
    /// All errors and warnings are told.
    All,
    /// Warnings are errors.
    Werror,
    /// What is found is written so.
    Format(Format),
    /// A format that there isn't.
    NoFormat,
    Help,
    Version,
}

/// What a word asks for, where it is no name of a file.
pub(crate) fn option_of(word: &str) -> Option<Request> {
    match word {
        "--complete" => Some(Request::Complete),
        "--first" => Some(Request::First),
        "--all" => Some(Request::All),
        "--werror" => Some(Request::Werror),
        "--format=text" => Some(Request::Format(Format::Text)),
        "--format=gcc" => Some(Request::Format(Format::Gcc)),
        "--format=sarif" => Some(Request::Format(Format::Sarif)),
        "--help" => Some(Request::Help),
        "--version" => Some(Request::Version),
        _ if word == "--format" || word.starts_with("--format=") => Some(Request::NoFormat),
        _ => None,
    }
}

/// Tells how the program is used.
pub(crate) fn tell_help(out: &mut impl io::Write) -> io::Result<()> {
    write!(out, "{HELP}")
}

/// Tells the version.
pub(crate) fn tell_version(out: &mut impl io::Write) -> io::Result<()> {
    writeln!(out, "oscheck {VERSION}")
}

/// Tells why a word asks for no format.
pub(crate) fn tell_no_format(out: &mut impl io::Write, word: &[u8]) -> io::Result<()> {
    let escaped = word.escape_ascii();
    writeln!(
        out,
        "{escaped}: there are --format=text, --format=gcc and --format=sarif"
    )
}

/// Tells that two words don't go together.
pub(crate) fn tell_no_use(out: &mut impl io::Write) -> io::Result<()> {
    writeln!(
        out,
        "--format is of no use with --complete, which writes programs"
    )
}
