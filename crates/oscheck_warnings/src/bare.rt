ghost use Rattle.std.specs.Prelude.{◌≡◌, ◌+◌, ◌<◌, ◌≤◌, ◌↔◌, IsTrue, Some, length};
ghost use Rattle.os_lexer.specs.Limits.{text_limit};
ghost use Rattle.oscheck_warnings.specs.Warnings.{kind_at, IsBareTask};

use crate::kinds::kind_at;
use os_lexer::names::{OMP, TASK};
use os_lexer::{Kind, Token};

/// Whether a token of a kind stands at a place.
pub(crate) fn stands(tokens: &[Token], place: usize, kind: Kind) -> bool
    ensures { IsTrue result ↔ (kind_at tokens.now place ≡ Some kind) }
{
    kind_at(tokens, place) == Some(kind)
}

/// Whether a task without clauses begins at a place: it reads no stream and writes none.
pub fn is_bare_task(tokens: &[Token], place: usize) -> bool
    requires within { place < length tokens.now }
    requires few { length tokens.now ≤ text_limit }
    ensures { IsTrue result ↔ IsBareTask tokens.now place }
{
    stands(tokens, place, Kind::PragmaStart)
        && stands(tokens, place + 1, Kind::Name(OMP))
        && stands(tokens, place + 2, Kind::Name(TASK))
        && stands(tokens, place + 3, Kind::PragmaEnd)
}
