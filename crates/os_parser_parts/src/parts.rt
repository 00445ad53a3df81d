//! The parts of statements, production by production.

ghost use Rattle.std.specs.Prelude.{◌≡◌, ◌+◌, ◌-◌, ◌≤◌, ◌<◌, length, map, option_map, IfOk, IfErr, OnOk};
ghost use Rattle.os_ast.specs.Trees as tree;
ghost use Rattle.os_ast.specs.Trees.{DeclaratorTree};
ghost use Rattle.os_ast.specs.Views.{expr_tree, target_tree, index_tree, declarator_tree, change_tree, start_tree, stmt_tree};
ghost use Rattle.os_parser_grammar.specs.Expressions.{below};
ghost use Rattle.os_parser_expressions.specs.Gives.{Gives};
ghost use Rattle.os_parser_grammar.specs.Reading.{Same, after};
ghost use Rattle.os_parser_grammar.specs.Statements.{name, target, size, value, attribute, scalar, declarator, head_declarator, type_words, begins_type};
ghost use Rattle.os_parser_grammar.specs.Statements.{declared, head_declared, change_of, change_by, before, change, ended, named_stmt, return_stmt};

use crate::comma_list::{Production, comma_list};
use crate::starts::{change_at, name_at, stmt_at};
use os_ast::{Assign, Call, Change, Declarator, Expr, Index, Mark, Name, Step, Stmt, Target, Ty};
use os_io::List;
use os_lexer::names::STREAM;
use os_lexer::{Key, Kind, Punct};
use os_parser_expressions::{Cursor, ProductionError, deeper, expr, index};
use os_parser_grammar::{ChangeSign, StmtStart};
use std::alloc::Global;

/// `name`
#[tactic(auto, unfolding(os_parser_grammar::specs::Statements::name))]
pub fn name(cursor: &mut Cursor<'_>) -> Result<Name, ProductionError>
    ensures gives { Gives Same result cursor.new (name cursor.old) }
    ensures within { length cursor.new ≤ length cursor.old }
{
    match name_at(cursor) {
        Some(id) => {
            let mark = cursor.mark();
            cursor.advance();
            Ok(Name { id, mark })
        }
        None => Err(ProductionError::Syntax),
    }
}

/// Whether a type begins with the next token.
pub fn begins_type(cursor: &Cursor<'_>) -> bool
    ensures { result ≡ begins_type cursor.now }
{
    cursor.is_at(Kind::Key(Key::Int)) || cursor.is_at(Kind::Key(Key::Unsigned))
}

/// `type = "int" | "unsigned" [ "int" ]`
#[tactic(auto, using(os_parser_grammar::proofs::Tokens::lengths), unfolding(os_parser_grammar::specs::Statements::type_words))]
pub fn type_words(cursor: &mut Cursor<'_>) -> Result<Ty, ProductionError>
    ensures gives { Gives Same result cursor.new (type_words cursor.old) }
    ensures within { length cursor.new ≤ length cursor.old }
    ensures taken { OnOk result (length cursor.new ≤ length (after cursor.old)) }
{
    if cursor.is_at(Kind::Key(Key::Int)) {
        cursor.advance();
        return Ok(Ty::Int);
    }
    if !cursor.is_at(Kind::Key(Key::Unsigned)) {
        return Err(ProductionError::Syntax);
    }
    cursor.advance();
    if !cursor.is_at(Kind::Key(Key::Int)) {
        return Ok(Ty::Unsigned);
    }
    cursor.advance();
    Ok(Ty::UnsignedInt)
}

/// `target = name [ "[" expr "]" ]`, which is also `stream`.
#[tactic(auto, unfolding(os_parser_grammar::specs::Statements::target))]
pub(crate) fn target(
    alloc: Global,
    cursor: &mut Cursor<'_>,
    depth: u32,
) -> Result<Target, ProductionError>
    ensures gives { Gives target_tree result cursor.new (target (below depth) cursor.old) }
    ensures within { length cursor.new ≤ length cursor.old }
{
    let name = name(cursor)?;
    os_parser_expressions::target(alloc, cursor, name, depth)
}

/// `[ "[" expr "]" ]`, the size of a `declr`, or the burst of an `in` or `out`.
#[tactic(auto, unfolding(os_parser_grammar::specs::Statements::size))]
pub(crate) fn size(
    alloc: Global,
    cursor: &mut Cursor<'_>,
    depth: u32,
) -> Result<Option<Index>, ProductionError>
    ensures gives { Gives (λ i. option_map index_tree i) result cursor.new (size (below depth) cursor.old) }
    ensures within { length cursor.new ≤ length cursor.old }
{
    if !cursor.is_at(Kind::Punct(Punct::OpenBracket)) {
        return Ok(None);
    }
    let index = index(alloc, cursor, depth)?;
    Ok(Some(index))
}

/// `[ "=" expr ]`, the first value of a scalar.
#[tactic(auto, unfolding(os_parser_grammar::specs::Statements::value))]
fn value(
    alloc: Global,
    cursor: &mut Cursor<'_>,
    depth: u32,
) -> Result<Option<Expr>, ProductionError>
    ensures gives { Gives (λ e. option_map expr_tree e) result cursor.new (value (below depth) cursor.old) }
    ensures within { length cursor.new ≤ length cursor.old }
{
    if !cursor.is_at(Kind::Punct(Punct::Set)) {
        return Ok(None);
    }
    let depth = deeper(depth)?;
    cursor.advance();
    let value = expr(alloc, cursor, depth)?;
    Ok(Some(value))
}

/// `[ "__attribute__" "(" "(" "stream" ")" ")" ]`, and whether it is there.
#[tactic(auto, unfolding(os_parser_grammar::specs::Statements::attribute))]
fn attribute(cursor: &mut Cursor<'_>) -> Result<bool, ProductionError>
    ensures gives { Gives Same result cursor.new (attribute cursor.old) }
    ensures within { length cursor.new ≤ length cursor.old }
{
    if !cursor.is_at(Kind::Key(Key::Attribute)) {
        return Ok(false);
    }
    cursor.advance();
    cursor.expect(Kind::Punct(Punct::OpenParen))?;
    cursor.expect(Kind::Punct(Punct::OpenParen))?;
    cursor.expect(Kind::Name(STREAM))?;
    cursor.expect(Kind::Punct(Punct::CloseParen))?;
    cursor.expect(Kind::Punct(Punct::CloseParen))?;
    Ok(true)
}

/// `declr`: a scalar, a window or an array, or streams.
#[derive(Drop)]
struct DeclaratorPart {
    depth: u32,
}

impl Production for DeclaratorPart {
    type Item = Declarator;

    ghost Tree = { DeclaratorTree };

    ghost view = { declarator_tree };

    ghost reads = { λ part. declarator (below part.depth) };

    #[tactic(auto, unfolding(os_parser_grammar::specs::Statements::declarator))]
    fn read(&self, alloc: Global, cursor: &mut Cursor<'_>) -> Result<Declarator, ProductionError> {
        let name = name(cursor)?;
        let size = size(alloc, cursor, self.depth)?;
        let stream = attribute(cursor)?;
        match size {
            Some(size) => Ok(Declarator {
                name,
                size: Some(size),
                stream,
                first: None,
            }),
            None => scalar(alloc, cursor, name, stream, self.depth),
        }
    }
}

/// A `declr` without a size, from what follows the attribute.
fn scalar(
    alloc: Global,
    cursor: &mut Cursor<'_>,
    name: Name,
    stream: bool,
    depth: u32,
) -> Result<Declarator, ProductionError>
    ensures gives { Gives declarator_tree result cursor.new (scalar (below depth) name stream cursor.old) }
    ensures within { length cursor.new ≤ length cursor.old }
{
    if stream {
        return Ok(Declarator {
            name,
            size: None,
            stream: true,
            first: None,
        });
    }
    let first = value(alloc, cursor, depth)?;
    Ok(Declarator {
        name,
        size: None,
        stream: false,
        first,
    })
}

/// `name [ "=" expr ]`, a scalar of `declare1`.
#[derive(Drop)]
struct HeadDeclaratorPart {
    depth: u32,
}

impl Production for HeadDeclaratorPart {
    type Item = Declarator;

    ghost Tree = { DeclaratorTree };

    ghost view = { declarator_tree };

    ghost reads = { λ part. head_declarator (below part.depth) };

    #[tactic(auto, unfolding(os_parser_grammar::specs::Statements::head_declarator))]
    fn read(&self, alloc: Global, cursor: &mut Cursor<'_>) -> Result<Declarator, ProductionError> {
        let name = name(cursor)?;
        scalar(alloc, cursor, name, false, self.depth)
    }
}

/// `target assign expr | target ( "++" | "--" )`, from what follows the target of this `change`.
#[tactic(auto, unfolding(os_parser_grammar::specs::Statements::change_of))]
fn change_of(
    alloc: Global,
    cursor: &mut Cursor<'_>,
    target: Target,
    depth: u32,
) -> Result<Change, ProductionError>
    ensures gives { Gives change_tree result cursor.new (change_of (below depth) (target_tree target) cursor.old) }
    ensures within { length cursor.new ≤ length cursor.old }
{
    match change_at(cursor) {
        ChangeSign::Assign(assign) => {
            let depth = deeper(depth)?;
            let mark = cursor.mark();
            cursor.advance();
            let value = expr(alloc, cursor, depth)?;
            Ok(Change::Set(target, assign, mark, value))
        }
        ChangeSign::Step(step) => {
            let mark = cursor.mark();
            cursor.advance();
            Ok(Change::After(target, step, mark))
        }
        ChangeSign::Other => Err(ProductionError::Syntax),
    }
}

/// `( "++" | "--" ) target`, a `change` from its first token on.
#[tactic(auto, unfolding(os_parser_grammar::specs::Statements::before))]
pub fn before(
    alloc: Global,
    cursor: &mut Cursor<'_>,
    step: Step,
    depth: u32,
) -> Result<Change, ProductionError>
    ensures gives { Gives change_tree result cursor.new (before step (below depth) cursor.old) }
    ensures within { length cursor.new ≤ length cursor.old }
    ensures taken { OnOk result (length cursor.new ≤ length (after cursor.old)) }
{
    let mark = cursor.mark();
    cursor.advance();
    let target = target(alloc, cursor, depth)?;
    Ok(Change::Before(target, step, mark))
}

/// `declr { "," declr } ";"`, a declaration behind its type.
#[tactic(auto, unfolding(os_parser_grammar::specs::Statements::declared))]
pub fn declared(
    alloc: Global,
    cursor: &mut Cursor<'_>,
    depth: u32,
) -> Result<List<Declarator>, ProductionError>
    ensures gives { Gives (map declarator_tree) result cursor.new (declared (below depth) cursor.old) }
    ensures within { length cursor.new ≤ length cursor.old }
{
    let declarators = comma_list(alloc, cursor, &DeclaratorPart { depth })?;
    cursor.expect(Kind::Punct(Punct::Semicolon))?;
    Ok(declarators)
}

/// `name [ "=" expr ] { "," name [ "=" expr ] } ";"`, a declaration of `declare1` behind its type.
#[tactic(auto, unfolding(os_parser_grammar::specs::Statements::head_declared))]
pub(crate) fn head_declared(
    alloc: Global,
    cursor: &mut Cursor<'_>,
    depth: u32,
) -> Result<List<Declarator>, ProductionError>
    ensures gives { Gives (map declarator_tree) result cursor.new (head_declared (below depth) cursor.old) }
    ensures within { length cursor.new ≤ length cursor.old }
{
    let declarators = comma_list(alloc, cursor, &HeadDeclaratorPart { depth })?;
    cursor.expect(Kind::Punct(Punct::Semicolon))?;
    Ok(declarators)
}

/// `change`
#[tactic(auto, unfolding(os_parser_grammar::specs::Statements::change))]
pub(crate) fn change(
    alloc: Global,
    cursor: &mut Cursor<'_>,
    depth: u32,
) -> Result<Change, ProductionError>
    ensures gives { Gives change_tree result cursor.new (change (below depth) cursor.old) }
    ensures within { length cursor.new ≤ length cursor.old }
{
    match stmt_at(cursor) {
        StmtStart::Name(_) => {
            let target = target(alloc, cursor, depth)?;
            change_of(alloc, cursor, target, depth)
        }
        StmtStart::Step(step) => before(alloc, cursor, step, depth),
        StmtStart::Semicolon
        | StmtStart::Brace
        | StmtStart::If
        | StmtStart::While
        | StmtStart::For
        | StmtStart::Break
        | StmtStart::Continue
        | StmtStart::Return
        | StmtStart::Pragma
        | StmtStart::Other => Err(ProductionError::Syntax),
    }
}

/// `change ";"`, from what follows the target of the `change`.
fn changed(
    alloc: Global,
    cursor: &mut Cursor<'_>,
    target: Target,
    depth: u32,
) -> Result<Stmt, ProductionError>
    ensures gives { Gives stmt_tree result cursor.new (ended (change_of (below depth) (target_tree target) cursor.old) tree.StmtTree.Change) }
    ensures within { length cursor.new ≤ length cursor.old }
{
    let change = change_of(alloc, cursor, target, depth)?;
    cursor.expect(Kind::Punct(Punct::Semicolon))?;
    Ok(Stmt::Change(change))
}

/// `change ";" | call ";"` where it begins with a name, from what follows the name.
#[tactic(auto, using(os_parser_expressions::proofs::Trees::trees), unfolding(os_parser_grammar::specs::Statements::named_stmt))]
pub fn named_stmt(
    alloc: Global,
    cursor: &mut Cursor<'_>,
    name: Name,
    depth: u32,
) -> Result<Stmt, ProductionError>
    ensures gives { Gives stmt_tree result cursor.new (named_stmt (below depth) name cursor.old) }
    ensures within { length cursor.new ≤ length cursor.old }
{
    if cursor.is_at(Kind::Punct(Punct::OpenParen)) {
        let args = os_parser_expressions::args(alloc, cursor, depth)?;
        cursor.expect(Kind::Punct(Punct::Semicolon))?;
        return Ok(Stmt::Call(Call { name, args }));
    }
    let target = os_parser_expressions::target(alloc, cursor, name, depth)?;
    changed(alloc, cursor, target, depth)
}

/// `"return" expr ";"`, from its `return` on.
#[tactic(auto, unfolding(os_parser_grammar::specs::Statements::return_stmt))]
pub fn return_stmt(
    alloc: Global,
    cursor: &mut Cursor<'_>,
    depth: u32,
) -> Result<Stmt, ProductionError>
    ensures gives { Gives stmt_tree result cursor.new (return_stmt (below depth) cursor.old) }
    ensures within { length cursor.new ≤ length cursor.old }
    ensures taken { OnOk result (length cursor.new ≤ length (after cursor.old)) }
{
    let depth = deeper(depth)?;
    let mark = cursor.mark();
    cursor.advance();
    let value = expr(alloc, cursor, depth)?;
    cursor.expect(Kind::Punct(Punct::Semicolon))?;
    Ok(Stmt::Return(mark, value))
}
