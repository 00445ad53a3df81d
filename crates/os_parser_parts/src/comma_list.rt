//! Lists of parts with commas between them.

ghost use Rattle.std.specs.Prelude.{◌≡◌, ◌+◌, ◌-◌, ◌≤◌, ◌<◌, length, map};
ghost use Rattle.os_parser_grammar.specs.Reading.{Reader};
ghost use Rattle.os_parser_expressions.specs.Gives.{Gives};
ghost use Rattle.os_parser_grammar.specs.Statements.{list_of};

use os_io::List;
use os_lexer::{Kind, Punct};
use os_parser_expressions::{Cursor, ProductionError};
use std::alloc::Global;

/// A production that lists are made of, with what reading it takes beside the tokens.
pub trait Production {
    /// What is made of the tokens of one part.
    type Item: Drop;

    ghost Tree: { Type 0 };

    /// What contracts see of an item.
    ghost view: { Self.Item → Tree };

    /// The grammar's reader of one part, by which `read` has to answer.
    ghost reads: { Self → Reader Tree };

    /// Reads the part that begins at the cursor, and moves the cursor behind it.
    fn read(&self, alloc: Global, cursor: &mut Cursor<'_>) -> Result<Self::Item, ProductionError>
        ensures gives { Gives view result cursor.new (reads self.now cursor.old) }
        ensures within { length cursor.new ≤ length cursor.old };
}

/// `part { "," part }`
pub fn comma_list<P: Production>(
    alloc: Global,
    cursor: &mut Cursor<'_>,
    part: &P,
) -> Result<List<P::Item>, ProductionError>
    ensures gives { Gives (map P.view) result cursor.new (list_of (P.reads part.now) cursor.old) }
    ensures within { length cursor.new ≤ length cursor.old }
{
    let mut items = List::new(alloc);
    items.push(part.read(alloc, cursor)?)?;
    while cursor.is_at(Kind::Punct(Punct::Comma)) {
        cursor.advance();
        items.push(part.read(alloc, cursor)?)?;
    }
    Ok(items)
}
