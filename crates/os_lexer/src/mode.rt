ghost use Rattle.std.specs.Prelude.{◌≡◌};
ghost use Rattle.std.specs.List.{list_any};
ghost use Rattle.os_lexer.specs.Bytes.{is_line_feed};
ghost use Rattle.os_lexer.specs.Effects.{mode_after_token, mode_after_gap};

use crate::bytes::is_line_feed;

/// What stands before a point on its line.
#[derive(Clone, Copy)]
pub(crate) enum Mode {
    /// White space and comments alone, so that a `#` may begin a directive.
    LineStart,
    /// A token as well, so that a `#` begins no directive before the next line.
    InLine,
    /// The start of a pragma whose line isn't over yet.
    InPragma,
}

impl Mode {
    /// The mode behind a token.
    pub(crate) fn after_token(self) -> Mode
        ensures { result ≡ mode_after_token self }
    {
        match self {
            Mode::LineStart | Mode::InLine => Mode::InLine,
            Mode::InPragma => Mode::InPragma,
        }
    }

    /// The mode behind a slice that is skipped.
    pub(crate) fn after_gap(self, slice: &[u8]) -> Mode
        ensures { result ≡ mode_after_gap self slice.now }
    {
        match self {
            Mode::LineStart => Mode::LineStart,
            Mode::InLine => line_mode(slice),
            Mode::InPragma => Mode::InPragma,
        }
    }
}

fn line_mode(slice: &[u8]) -> Mode
    ensures { result ≡ mode_after_gap Mode.InLine slice.now }
{
    if has_line_feed(slice) {
        Mode::LineStart
    } else {
        Mode::InLine
    }
}

/// Whether a line feed stands in the slice.
pub(crate) fn has_line_feed(slice: &[u8]) -> bool
    ensures { result ≡ list_any is_line_feed slice.now }
{
    slice.iter().any(|byte| is_line_feed(*byte))
}
