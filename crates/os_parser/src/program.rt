//! Programs, functions and constants.

ghost use Rattle.std.specs.Prelude.{◌≡◌, ◌+◌, ◌-◌, ◌≤◌, ◌<◌, length, map, OnOk};
ghost use Rattle.os_ast.specs.declared.program.Param.{Param};
ghost use Rattle.os_ast.specs.Views.{stmts_tree, item_tree};
ghost use Rattle.os_parser_expressions.specs.Gives.{Gives};
ghost use Rattle.os_parser_grammar.specs.Reading.{Same, got, after};
ghost use Rattle.os_parser_grammar.specs.Statements.{inner, param, params, function, number, minus, constant, item, is_more, program};

use crate::stmt::block;
use os_ast::{Constant, Function, Item, Param, Params};
use os_io::List;
use os_lexer::{Key, Kind, Punct};
use os_parser_expressions::{Cursor, ProductionError};
use os_parser_grammar::Numeral;
use os_parser_parts::comma_list::{Production, comma_list};
use os_parser_parts::{name, number_at, type_words};
use std::alloc::Global;

/// `type name`, a parameter of `params`.
struct ParamPart;

impl Production for ParamPart {
    type Item = Param;

    ghost Tree = { Param };

    ghost view = { Same };

    ghost reads = { λ part. param };

    #[tactic(auto, unfolding(os_parser_grammar::specs::Statements::param))]
    fn read(&self, alloc: Global, cursor: &mut Cursor<'_>) -> Result<Param, ProductionError> {
        let ty = type_words(cursor)?;
        let name = name(cursor)?;
        Ok(Param { ty, name })
    }
}

/// `[ params ]`
#[tactic(auto, using(os_parser_grammar::proofs::Lists::same), unfolding(os_parser_grammar::specs::Statements::params))]
fn params(alloc: Global, cursor: &mut Cursor<'_>) -> Result<Params, ProductionError>
    ensures gives { Gives Same result cursor.new (params cursor.old) }
    ensures within { length cursor.new ≤ length cursor.old }
{
    if cursor.is_at(Kind::Punct(Punct::CloseParen)) {
        return Ok(Params::Empty);
    }
    if cursor.is_at(Kind::Key(Key::Void)) {
        cursor.advance();
        return Ok(Params::Void);
    }
    let params = comma_list(alloc, cursor, &ParamPart)?;
    Ok(Params::Names(params))
}

/// `function = type name "(" [ params ] ")" block`
#[tactic(auto, unfolding(os_parser_grammar::specs::Statements::function))]
fn function(alloc: Global, cursor: &mut Cursor<'_>, depth: u32) -> Result<Item, ProductionError>
    ensures gives { Gives item_tree result cursor.new (function (inner depth) cursor.old) }
    ensures within { length cursor.new ≤ length cursor.old }
    ensures taken { OnOk result (length cursor.new ≤ length (after cursor.old)) }
{
    let ty = type_words(cursor)?;
    let name = name(cursor)?;
    cursor.expect(Kind::Punct(Punct::OpenParen))?;
    let params = params(alloc, cursor)?;
    cursor.expect(Kind::Punct(Punct::CloseParen))?;
    cursor.expect(Kind::Punct(Punct::OpenBrace))?;
    let body = block(alloc, cursor, depth)?;
    Ok(Item::Function(Function {
        ty,
        name,
        params,
        body,
    }))
}

/// `number`, which is below 2^31 where it isn't wide.
#[tactic(auto, unfolding(os_parser_grammar::specs::Statements::number))]
fn number(cursor: &mut Cursor<'_>) -> Result<Numeral, ProductionError>
    ensures gives { Gives Same result cursor.new (number cursor.old) }
    ensures within { length cursor.new ≤ length cursor.old }
{
    match number_at(cursor) {
        Some(number) => {
            cursor.advance();
            Ok(number)
        }
        None => Err(ProductionError::Syntax),
    }
}

/// `[ "-" ]`, and whether it is there.
#[tactic(auto, using(os_parser_grammar::proofs::Tokens::lengths), unfolding(os_parser_grammar::specs::Statements::minus))]
fn minus(cursor: &mut Cursor<'_>) -> bool
    ensures gives { minus cursor.old ≡ got result cursor.new }
    ensures within { length cursor.new ≤ length cursor.old }
{
    if !cursor.is_at(Kind::Punct(Punct::Minus)) {
        return false;
    }
    cursor.advance();
    true
}

/// `constant = "const" type name "=" [ "-" ] number ";"`, from its `const` on.
#[tactic(auto, unfolding(os_parser_grammar::specs::Statements::constant))]
fn constant(cursor: &mut Cursor<'_>) -> Result<Item, ProductionError>
    ensures gives { Gives item_tree result cursor.new (constant cursor.old) }
    ensures within { length cursor.new ≤ length cursor.old }
    ensures taken { OnOk result (length cursor.new ≤ length (after cursor.old)) }
{
    cursor.advance();
    let ty = type_words(cursor)?;
    let name = name(cursor)?;
    cursor.expect(Kind::Punct(Punct::Set))?;
    let minus = minus(cursor);
    let Numeral { size, wide } = number(cursor)?;
    cursor.expect(Kind::Punct(Punct::Semicolon))?;
    Ok(Item::Constant(Constant {
        ty,
        name,
        minus,
        size,
        wide,
    }))
}

/// `constant | function`
#[tactic(auto, unfolding(os_parser_grammar::specs::Statements::item))]
fn item(alloc: Global, cursor: &mut Cursor<'_>, depth: u32) -> Result<Item, ProductionError>
    ensures gives { Gives item_tree result cursor.new (item (inner depth) cursor.old) }
    ensures within { length cursor.new ≤ length cursor.old }
    ensures taken { OnOk result (length cursor.new ≤ length (after cursor.old)) }
{
    if cursor.is_at(Kind::Key(Key::Const)) {
        return constant(cursor);
    }
    function(alloc, cursor, depth)
}

/// Whether tokens are left.
fn is_more(cursor: &Cursor<'_>) -> bool
    ensures { result ≡ is_more cursor.now }
{
    cursor.kind().is_some()
}

/// `program = { constant | function }`, to the last token.
pub(crate) fn program(
    alloc: Global,
    cursor: &mut Cursor<'_>,
    depth: u32,
) -> Result<List<Item>, ProductionError>
    ensures gives { Gives (map item_tree) result cursor.new (program (inner depth) cursor.old) }
{
    let mut items = List::new(alloc);
    while is_more(cursor) {
        items.push(item(alloc, cursor, depth)?)?;
    }
    Ok(items)
}
