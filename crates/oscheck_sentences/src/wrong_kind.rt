//! What is said of a name that is of the wrong kind for its place.

use crate::at::At;
use crate::name_uses::{Meant, Role};
use crate::sentences::{Sentence, of};
use os_lexer::names::MAIN;
use os_lexer::{Kind, Punct};

/// What is said of the stream of an item or a tick.
fn of_flow(meant: Meant) -> Sentence {
    match meant {
        Meant::Stream => of(" is a single stream: leave the index out"),
        Meant::Streams => of(
            " is an array of streams, and an item or a tick takes one of them: give its index, as in [0]",
        ),
        _ => of(
            " is no stream, and an item or a tick begins with one: write STREAM >> NAME, or STREAM << NAME; __attribute__((stream)) declares one",
        ),
    }
}

/// What is said of what stands behind the arrow of an item.
fn of_joined(at: &At<'_>, meant: Meant) -> Sentence {
    match meant {
        Meant::Array if at.kind_before() == Some(Kind::Punct(Punct::ShiftLeft)) => of(
            " is a window, and its item has no burst: write its size behind it in brackets",
        ),
        Meant::Array => of(
            " is a window, and its item has no burst: write behind it in brackets by how much it moves, as in [1]",
        ),
        Meant::Scalar => of(
            " is a scalar, which takes one element and has no burst: leave the brackets out, or declare it with a size, as a window",
        ),
        _ => of(
            " can't be joined to a stream: behind the arrow stands a scalar or a window that main declares",
        ),
    }
}

/// What is said of a name in `firstprivate`.
fn of_private(meant: Meant) -> Sentence {
    match meant {
        Meant::Array => of(
            " is a window, which no task captures: name it in an item, or declare an array in the body of the task",
        ),
        _ => of(" can't be captured: firstprivate lists scalars that main declares"),
    }
}

/// Whether a name stands at one side of an assignment, and an array at the other.
fn is_copied(at: &At<'_>) -> bool {
    let set = Some(Kind::Punct(Punct::Set));
    (at.kind_behind(1) == set && at.usage_behind(2).meant == Meant::Array)
        || (at.kind_before() == set && at.usage_before(2).meant == Meant::Array)
}

/// What is said of an array that stands without an index.
fn of_array(at: &At<'_>) -> Sentence {
    if at.usage().role == Role::Argument {
        of(
            " is an array, and a function takes numbers alone: pass its elements, each as an argument",
        )
    } else if is_copied(at) {
        of(" is an array, and no array is copied whole: copy its elements in a loop")
    } else {
        of(" is an array: name one of its elements by an index, as in [0]")
    }
}

/// What is said of a name that is called.
fn of_called(at: &At<'_>) -> Sentence {
    if at.kind() == Some(Kind::Name(MAIN)) {
        of(
            " is the control program, and nothing calls it: put what both do into a function of its own",
        )
    } else {
        of(" is no function: call one that stands above, or leave the parentheses out")
    }
}

/// What is said of a value, or of the target of a change, by what it means.
fn of_value(at: &At<'_>, meant: Meant) -> Sentence {
    match meant {
        Meant::Function => of(
            " is a function: call it, with its arguments in parentheses behind it",
        ),
        Meant::Array => of_array(at),
        Meant::Streams => of_flow(meant),
        Meant::Stream => of_flow(meant),
        Meant::Scalar | Meant::Constant(_) => of(
            " is one number, without elements: leave the index out, or declare an array",
        ),
        Meant::Nothing | Meant::Itself | Meant::Later => of(
            " is of the wrong kind for this place: an array needs an index, a scalar none, a call a function, an item or tick a stream",
        ),
    }
}

/// What is said of a name of the wrong kind.
pub(crate) fn of_wrong_kind(at: &At<'_>) -> Sentence {
    let meant = at.usage().meant;
    match at.usage().role {
        Role::Flow => of_flow(meant),
        Role::Joined => of_joined(at, meant),
        Role::Private => of_private(meant),
        Role::Value | Role::Argument => {
            if at.kind_behind(1) == Some(Kind::Punct(Punct::OpenParen)) {
                of_called(at)
            } else {
                of_value(at, meant)
            }
        }
    }
}
