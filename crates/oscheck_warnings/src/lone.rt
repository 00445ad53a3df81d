//! Names that stand once.

ghost use Rattle.std.specs.Prelude.{◌≡◌, ◌≢◌, ◌+◌, ◌<◌, ◌↔◌, ℕ, IsTrue, Some, length, IfOk, IfSome, IfNone};
ghost use Rattle.os_lexer.specs.Names.{first_own_id};
ghost use Rattle.os_lexer.specs.declared.token.Kind.TheVariants as kinds;
ghost use Rattle.oscheck_warnings.specs.Warnings.{kind_at, IsLoneName, AreRepeated};

use os_io::Memory;
use os_lexer::names::FIRST_OWN_ID;
use os_lexer::{Kind, Token};
use std::alloc::Global;

/// The place of the first token that is spelled as the name at a place, where that is another one.
fn first_elsewhere(tokens: &[Token], place: usize) -> Option<usize>
    requires { place < length tokens.now }
    ensures some { IfSome result (λ first. (first ≢ place) × (kind_at tokens.now place ≡ Some (kinds.Name (first_own_id + first)))) }
    ensures none { IfNone result ((first : ℕ) → first ≢ place → kind_at tokens.now place ≢ Some (kinds.Name (first_own_id + first))) }
{
    match tokens[place].kind {
        Kind::Name(id) if id >= FIRST_OWN_ID && (id - FIRST_OWN_ID) as usize != place => {
            Some((id - FIRST_OWN_ID) as usize)
        }
        _ => None,
    }
}

/// For each place, whether the name that stands there first is spelled at another place too.
#[tactic(auto, using(crate::proofs::Repeated::repeated))]
pub fn repeated_names(alloc: Global, tokens: &[Token]) -> Result<Vec<bool>, Memory>
    ensures { IfOk result (λ marks. AreRepeated tokens.now marks.items) }
{
    let mut marks = vec![in alloc; false; tokens.len()]?;
    for place in 0..tokens.len() {
        if let Some(first) = first_elsewhere(tokens, place) {
            if first < marks.len() {
                marks[first] = true;
            }
        }
    }
    Ok(marks)
}

/// Whether a name stands at a place, and nowhere else: in an accepted program it is one that is declared and not used. The names that
/// are spelled once more are handed in.
pub fn is_lone_name(tokens: &[Token], repeated: &[bool], place: usize) -> bool
    requires within { place < length tokens.now }
    requires repeated { AreRepeated tokens.now repeated.now }
    ensures { IsTrue result ↔ IsLoneName tokens.now place }
{
    match tokens[place].kind {
        Kind::Name(id) => id >= FIRST_OWN_ID
            && (id - FIRST_OWN_ID) as usize == place
            && !repeated[place],
        _ => false,
    }
}
