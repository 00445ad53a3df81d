//! What the words ask for.

use std::io;

/// What `--version` tells: the version in the file VERSION of the repository.
const VERSION: &str = "oscc 1.0.0";

/// What is told where help is asked for.
const HELP: &str = "\
oscc writes OpenStream programs as C. Nothing is run.

    oscc FILE             writes the program in FILE as C to standard output
    oscc --object FILE    writes the code in FILE, an object that osrun compile wrote
    oscc --runtime        tells the words by which a C compiler finds the runtime
    oscc --help           tells this
    oscc --version        tells the version

    oscc adpcm.c >q.c && gcc -O2 -std=c11 q.c $(oscc --runtime) -o adpcm
    ./adpcm INPUT [--budget N] [--control N] >OUTPUT

A file whose name begins with - is named by ./-name. The status is 0 where all was written, 1 where the file is refused, 2 where
the words are, 5 where it couldn't be read, 6 where not all could be written, and 7 where memory ran out.
";

/// What is to be done.
#[derive(Clone, Copy)]
pub(crate) enum Request<'a> {
    /// The text in the file of this name is written as C.
    Text(&'a str),
    /// The code of the object in the file of this name is.
    Object(&'a str),
    Help,
    Version,
}

/// What the words ask for, if they do.
pub(crate) fn request_of(words: &[String]) -> Option<Request<'_>> {
    match words.len() {
        1 => request_by(words[0].as_str()),
        2 if words[0].as_str() == "--object" => name_in(words[1].as_str()).map(Request::Object),
        _ => None,
    }
}

/// What a word alone asks for.
fn request_by(word: &str) -> Option<Request<'_>> {
    match word {
        "--help" => Some(Request::Help),
        "--version" => Some(Request::Version),
        _ => name_in(word).map(Request::Text),
    }
}

/// The name of a file that a word is, if it is one.
fn name_in(word: &str) -> Option<&str> {
    if word.starts_with('-') {
        None
    } else {
        Some(word)
    }
}

/// Tells how the program is used.
pub(crate) fn tell_help(out: &mut impl io::Write) -> io::Result<()> {
    write!(out, "{HELP}")?;
    out.flush()
}

/// Tells the version.
pub(crate) fn tell_version(out: &mut impl io::Write) -> io::Result<()> {
    writeln!(out, "{VERSION}")?;
    out.flush()
}
