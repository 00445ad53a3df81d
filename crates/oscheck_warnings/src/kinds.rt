ghost use Rattle.std.specs.Prelude.{◌≡◌};
ghost use Rattle.oscheck_warnings.specs.Warnings.{kind_at};

use os_lexer::{Kind, Token};

/// The kind of the token at a place, where there is one.
pub(crate) fn kind_at(tokens: &[Token], place: usize) -> Option<Kind>
    ensures { result ≡ kind_at tokens.now place }
{
    match tokens.get(place) {
        Some(token) => Some(token.kind),
        None => None,
    }
}
