//! Streams that no task reads, or none writes.

ghost use Rattle.std.specs.Prelude.{◌≡◌, ◌≢◌, ◌+◌, ◌<◌, ◌≤◌, ◌↔◌, ℕ, IsTrue, Some, length, IfOk, IfSome, IfNone};
ghost use Rattle.os_lexer.specs.Limits.{text_limit};
ghost use Rattle.os_lexer.specs.declared.token.Kind.TheVariants as kinds;
ghost use Rattle.oscheck_warnings.specs.Streams.{clause_place_past, AreInClauses, HasAttribute, IsLeftOut};
ghost use Rattle.oscheck_warnings.specs.Open.{open_in};
ghost use Rattle.oscheck_warnings.specs.Warnings.{kind_at};
ghost use Rattle.oscheck_warnings.specs.declared.clause_place.ClausePlace.TheVariants as places;

use crate::bare::stands;
use crate::clause_place::ClausePlace;
use crate::kinds::kind_at;
use crate::past::clause_place_past;
use os_io::Memory;
use os_lexer::names::FIRST_OWN_ID;
use os_lexer::{Key, Kind, Punct, Token};
use std::alloc::Global;

/// The name with which an item of a clause with a word begins at a place, where it begins there. The clause place there is handed in.
fn begun(tokens: &[Token], word: u32, clause_place: ClausePlace, place: usize) -> Option<u32>
    requires { place < length tokens.now }
    ensures some { IfSome result (λ name. (clause_place ≡ places.Start word) × (kind_at tokens.now place ≡ Some (kinds.Name name))) }
    ensures none { IfNone result ((name : ℕ) → clause_place ≡ places.Start word → kind_at tokens.now place ≢ Some (kinds.Name name)) }
{
    match tokens[place].kind {
        Kind::Name(name) if clause_place == ClausePlace::Start(word) => Some(name),
        _ => None,
    }
}

/// The clause place behind the token at a place.
fn clause_place_behind(tokens: &[Token], clause_place: ClausePlace, place: usize) -> ClausePlace
    requires { open_in clause_place ≤ text_limit }
    ensures exact { result ≡ clause_place_past clause_place (kind_at tokens.now place) }
    ensures few { open_in result ≤ open_in clause_place + 1 }
{
    clause_place_past(clause_place, kind_at(tokens, place))
}

/// Which names stand for streams of items in the clauses with a word, by the numbers of the names: the streams that tasks read where
/// the word is `input`, and those that they write where it is `output`.
#[tactic(auto, using(crate::proofs::Named::named))]
pub fn names_in_clauses(alloc: Global, tokens: &[Token], word: u32) -> Result<Vec<bool>, Memory>
    requires few { length tokens.now ≤ text_limit }
    ensures { IfOk result (λ marks. AreInClauses tokens.now word marks.items) }
{
    let mut marks = vec![in alloc; false; FIRST_OWN_ID as usize + tokens.len()]?;
    let mut clause_place = ClausePlace::Outside;
    for place in 0..tokens.len() {
        if let Some(name) = begun(tokens, word, clause_place, place) {
            let name = name as usize;
            if name < marks.len() {
                marks[name] = true;
            }
        }
        clause_place = clause_place_behind(tokens, clause_place, place);
    }
    Ok(marks)
}

/// Whether what declares a stream stands behind a name: the attribute, or the size of an array and the attribute.
fn has_attribute(tokens: &[Token], place: usize) -> bool
    requires within { place < length tokens.now }
    requires few { length tokens.now ≤ text_limit }
    ensures { IsTrue result ↔ HasAttribute tokens.now place }
{
    stands(tokens, place + 1, Kind::Key(Key::Attribute))
        || (stands(tokens, place + 1, Kind::Punct(Punct::OpenBracket))
            && stands(tokens, place + 3, Kind::Punct(Punct::CloseBracket))
            && stands(tokens, place + 4, Kind::Key(Key::Attribute)))
}

/// Whether a stream is declared at a place, or an array of streams, of which the clauses with a word have no item. The names that
/// they have items of are handed in.
pub fn is_left_out(tokens: &[Token], word: u32, named: &[bool], place: usize) -> bool
    requires within { place < length tokens.now }
    requires few { length tokens.now ≤ text_limit }
    requires named { AreInClauses tokens.now word named.now }
    ensures { IsTrue result ↔ IsLeftOut tokens.now word place }
{
    match tokens[place].kind {
        Kind::Name(name) => {
            has_attribute(tokens, place) && (name as usize) < named.len() && !named[name as usize]
        }
        _ => false,
    }
}
