ghost use Rattle.std.specs.Prelude.{◌≡◌};
ghost use Rattle.oscheck_reports.specs.Places.{byte_of, character_of, line_of};

use crate::check::Check;

/// Where in a file something was found. Lines and columns count from 1.
#[derive(Clone, Copy, Debug, PartialEq, Eq)]
pub enum Place {
    /// The file as a whole.
    File,
    /// A line, and nothing in it.
    Line(u32),
    /// A byte of a line.
    Column {
        line: u32,
        /// How many bytes of the line stand before it, and one more.
        byte: usize,
        /// How many characters of the line begin before it, and one more.
        character: usize,
    },
}

impl Place {
    /// Its line, or the first one.
    pub(crate) fn line(self) -> u32
        ensures { result ≡ line_of self }
    {
        match self {
            Place::File => 1,
            Place::Line(line) | Place::Column { line, .. } => line,
        }
    }

    /// Its column in bytes, or the first one.
    pub(crate) fn byte(self) -> usize
        ensures { result ≡ byte_of self }
    {
        match self {
            Place::File | Place::Line(_) => 1,
            Place::Column { byte, .. } => byte,
        }
    }

    /// Its column in characters, or the first one.
    pub(crate) fn character(self) -> usize
        ensures { result ≡ character_of self }
    {
        match self {
            Place::File | Place::Line(_) => 1,
            Place::Column { character, .. } => character,
        }
    }
}

/// An error or a warning.
#[derive(Drop)]
pub struct Finding {
    pub check: Check,
    pub place: Place,
    /// What is wrong there, for who wrote the text.
    pub sentence: String,
    /// The line of the text with a mark, each of both with its line feed; empty where no line is shown.
    pub excerpt: Vec<u8>,
}
