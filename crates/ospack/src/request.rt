//! What the words ask for.

ghost use Rattle.std.specs.Prelude.{◌≤◌, IfSome};
ghost use Rattle.ospack.specs.Words.{IsLawful, IsWithin};
ghost use Rattle.ospack_slots.specs.Limits.{slot_limit};

use ospack_slots::SLOT_LIMIT;

/// How many bytes the length of a slot takes: no slot is shorter.
const LEAST: u32 = 2;

/// From slots to what is packed of them, or back.
#[derive(Clone, Copy, Debug, PartialEq, Eq)]
pub(crate) enum Way {
    Pack,
    Unpack,
}

/// A conversion of standard input.
#[derive(Clone, Copy, Debug)]
pub(crate) struct Conversion {
    pub(crate) way: Way,
    /// How many bytes a slot has.
    pub(crate) size: u32,
}

/// What is to be done.
#[derive(Clone, Copy, Debug)]
pub(crate) enum Request {
    /// To pack or unpack standard input.
    Convert(Conversion),
    /// To tell how the program is used.
    Help,
    /// To tell its version.
    Version,
}

/// What the words ask for, if they do: the name of a way and the size of a slot, or one option.
pub(crate) fn request_of(words: &[String]) -> Option<Request>
    ensures { IfSome result IsLawful }
{
    match words.len() {
        1 => option_of(words[0].as_str()),
        2 => conversion_of(words[0].as_str(), words[1].as_str()),
        _ => None,
    }
}

/// What a single word asks for.
fn option_of(word: &str) -> Option<Request>
    ensures { IfSome result IsLawful }
{
    match word {
        "--help" => Some(Request::Help),
        "--version" => Some(Request::Version),
        _ => None,
    }
}

/// The conversion that the name of a way and the size of a slot ask for.
fn conversion_of(way: &str, size: &str) -> Option<Request>
    ensures { IfSome result IsLawful }
{
    let way = way_of(way)?;
    let size = size_of(size)?;
    Some(Request::Convert(Conversion { way, size }))
}

/// The way with this name.
fn way_of(word: &str) -> Option<Way> {
    match word {
        "pack" => Some(Way::Pack),
        "unpack" => Some(Way::Unpack),
        _ => None,
    }
}

/// The size of a slot that a word names.
fn size_of(word: &str) -> Option<u32>
    ensures low { IfSome result (λ size. 2 ≤ size) }
    ensures high { IfSome result (λ size. size ≤ slot_limit) }
{
    match word.parse::<u32>() {
        Ok(size) if LEAST <= size && size <= SLOT_LIMIT => Some(size),
        _ => None,
    }
}
