//! What is said of an array, or of a stream, whose size is refused.

use crate::at::At;
use crate::name_uses::{Magnitude, Meant, magnitude_of};
use crate::sentences::{Sentence, of};
use os_lexer::{Key, Kind, Punct};

/// What is said where the size alone is right.
fn of_limit(at: &At<'_>) -> Sentence {
    match at.usage().meant {
        Meant::Stream | Meant::Streams => of(
            " makes the streams too many: a program declares at most 65536, each of an array counted",
        ),
        _ => of(
            " makes the arrays too large: those of a function or a task have at most 65536 elements together, and all of the program 1048576",
        ),
    }
}

/// What is said of a size by its value.
fn of_magnitude(at: &At<'_>, magnitude: Magnitude) -> Sentence {
    match magnitude {
        Magnitude::Small => of(" has a size below 1: give it one element at least"),
        Magnitude::Large => of(" has a size above 65536: use a smaller one"),
        Magnitude::Size => of_limit(at),
    }
}

/// What is said of a size that is no constant.
fn of_no_constant() -> Sentence {
    of(
        " has a size that is no constant: write one number, or the name of a const int outside functions",
    )
}

/// What is said of a size that is one token.
fn of_token(at: &At<'_>, kind: Kind) -> Sentence {
    match (kind, at.usage_behind(2).meant) {
        (Kind::Number(number) | Kind::Wide(number), _) => of_magnitude(at, magnitude_of(number)),
        (Kind::Name(_), Meant::Constant(magnitude)) => of_magnitude(at, magnitude),
        _ => of_no_constant(),
    }
}

/// What is said of an array or of a stream whose size is refused, or with which there are too many.
pub(crate) fn of_wrong_size(at: &At<'_>) -> Sentence {
    if at.kind_behind(1) == Some(Kind::Key(Key::Attribute)) {
        return of_limit(at);
    }
    match (at.kind_behind(2), at.kind_behind(3)) {
        (Some(kind), Some(Kind::Punct(Punct::CloseBracket))) => of_token(at, kind),
        _ => of_no_constant(),
    }
}
