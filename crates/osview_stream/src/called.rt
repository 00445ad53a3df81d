ghost use Rattle.std.specs.Prelude.{◌≡◌, ◌≢◌, ◌++◌, ◌<◌, ◌≤◌, ◌^◌, ℕ, List, IfNone, IfSome, codes, false, ◌==◌, length};
ghost use Rattle.std.specs.Fmt.{decimal};
ghost use Rattle.osview_sentences.specs.Names.{slice};
ghost use Rattle.osview_stream.specs.Called.{IsCalled, IsNamed, IsNoneOf, IsOf, NamesNoStream, standard_stream};

use os_io::parse_decimal;
use osview_sentences::StreamName;

/// The number below 2 ^ 32 that a text has in brackets.
fn index_of(text: &[u8]) -> Option<u32>
    ensures small { IfSome result (λ index. index < 2 ^ 32) }
    ensures some { IfSome result (λ index. text.now ≡ codes "[" ++ decimal index ++ codes "]") }
    ensures none { IfNone result ((index : ℕ) → index < 2 ^ 32 → text.now ≡ codes "[" ++ decimal index ++ codes "]" → ⊥) }
{
    match text {
        [b'[', digits @ .., b']'] => parse_decimal(digits),
        _ => None,
    }
}

/// What stands in a word behind a name.
fn behind<'w>(word: &'w [u8], name: &[u8]) -> Option<&'w [u8]>
    ensures some { IfSome result (λ rest. word.now ≡ name.now ++ rest.now) }
    ensures none { IfNone result ((rest : List ℕ) → word.now ≡ name.now ++ rest → ⊥) }
{
    if word.len() < name.len() {
        return None;
    }
    let (front, rest) = word.split_at(name.len());
    if front == name { Some(rest) } else { None }
}

/// The number in brackets that stands in a word behind a name.
fn index_behind(word: &[u8], name: &[u8]) -> Option<u32>
    ensures small { IfSome result (λ index. index < 2 ^ 32) }
    ensures some { IfSome result (λ index. word.now ≡ name.now ++ (codes "[" ++ decimal index ++ codes "]")) }
    ensures none { IfNone result ((index : ℕ) → index < 2 ^ 32 → word.now ≡ name.now ++ (codes "[" ++ decimal index ++ codes "]") → ⊥) }
{
    match behind(word, name) {
        Some(rest) => index_of(rest),
        None => None,
    }
}

/// The member of an array that is called so.
fn member_of(text: &[u8], streams: u32, word: &[u8], name: StreamName) -> Option<u32>
    requires { (name.count == 1) ≡ false }
    ensures some { IfSome result (IsOf text.now streams word.now name) }
    ensures none { IfNone result ((stream : ℕ) → IsOf text.now streams word.now name stream → ⊥) }
{
    match index_behind(word, name.bytes(text)) {
        Some(index) if index < name.count && name.first < streams && index < streams - name.first =>
            { Some(name.first + index) }
        _ => None,
    }
}

/// The stream that is no array's and is called so.
fn single_of(text: &[u8], streams: u32, word: &[u8], name: StreamName) -> Option<u32>
    requires { name.count ≡ 1 }
    ensures some { IfSome result (IsOf text.now streams word.now name) }
    ensures none { IfNone result ((stream : ℕ) → IsOf text.now streams word.now name stream → ⊥) }
{
    if name.first < streams && name.bytes(text) == word {
        Some(name.first)
    } else {
        None
    }
}

/// The stream of a name that is called so.
fn stream_of(text: &[u8], streams: u32, word: &[u8], name: StreamName) -> Option<u32>
    ensures some { IfSome result (IsOf text.now streams word.now name) }
    ensures none { IfNone result ((stream : ℕ) → IsOf text.now streams word.now name stream → ⊥) }
{
    if name.count == 1 {
        single_of(text, streams, word, name)
    } else {
        member_of(text, streams, word, name)
    }
}

/// The stream that the names of a text call so: the one whose name stands first.
fn stream_in_text(text: &[u8], streams: u32, names: &[StreamName], word: &[u8]) -> Option<u32>
    ensures some { IfSome result (IsCalled text.now streams names.now word.now) }
    ensures none { IfNone result (IsNoneOf text.now streams word.now names.now) }
{
    for name in names {
        if let Some(stream) = stream_of(text, streams, word, *name) {
            return Some(stream);
        }
    }
    None
}

/// The stream that each program has under this name, whether its text names it or not.
fn standard_stream(word: &[u8]) -> Option<u32>
    ensures { result ≡ standard_stream word.now }
{
    if word == b"osin".as_slice() {
        Some(0)
    } else if word == b"osout".as_slice() {
        Some(1)
    } else {
        None
    }
}

/// The stream that a word names, one of `streams` streams: by their names where they stand in the text of a program. A member of an array
/// is named with its index in brackets. Where several streams are called so, it is that whose name stands first. Each program has the
/// streams `osin` and `osout`, so that these words name them where the text doesn't name a stream so.
pub fn called_stream(text: &[u8], streams: u32, names: &[StreamName], word: &[u8]) -> Option<u32>
    ensures some { IfSome result (IsNamed text.now streams names.now word.now) }
    ensures none { IfNone result (NamesNoStream text.now streams names.now word.now) }
{
    match stream_in_text(text, streams, names, word) {
        Some(stream) => Some(stream),
        None => standard_stream(word),
    }
}
