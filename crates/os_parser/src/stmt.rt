//! Statements and blocks.

ghost use Rattle.std.specs.Prelude.{◌≡◌, ◌+◌, ◌-◌, ◌≤◌, ◌<◌, length, map, OnOk, box_value};
ghost use Rattle.os_ast.specs.Views.{stmt_tree, stmts_tree, clause_tree};
ghost use Rattle.os_parser_grammar.specs.Expressions.{below};
ghost use Rattle.os_parser_expressions.specs.Gives.{Gives};
ghost use Rattle.os_parser_grammar.specs.Reading.{after};
ghost use Rattle.os_parser_grammar.specs.Statements.{inner, inner_item, stmt_on, stmts, block, block_item, if_stmt, while_stmt, for_stmt, task, pragma};

use os_ast::{Change, Mark, Name, Stmt, TaskSite};
use os_io::List;
use os_lexer::names::{OMP, TASK, TASKWAIT, TICK};
use os_lexer::{Key, Kind, Punct};
use os_parser_expressions::{Cursor, ProductionError, deeper};
use os_parser_grammar::StmtStart;
use os_parser_parts::{
    before, begins_type, clauses, condition, declared, head, named_stmt, return_stmt, stmt_at,
    taskwait, tick, type_words,
};
use std::alloc::Global;

/// `stmt`
#[cycle(statements)]
#[tactic(auto, using(crate::proofs::Stmts::stmts), unfolding(os_parser_grammar::specs::Statements::stmt_on, os_parser_grammar::specs::Statements::stmt_by))]
pub(crate) fn stmt(
    alloc: Global,
    cursor: &mut Cursor<'_>,
    depth: u32,
) -> Result<Stmt, ProductionError>
    ensures gives { Gives stmt_tree result cursor.new (stmt_on (inner depth) cursor.old) }
    ensures within { length cursor.new ≤ length cursor.old }
    ensures taken { OnOk result (length cursor.new ≤ length (after cursor.old)) }
{
    match stmt_at(cursor) {
        StmtStart::Semicolon => {
            cursor.advance();
            Ok(Stmt::Empty)
        }
        StmtStart::Brace => {
            cursor.advance();
            Ok(Stmt::Block(block(alloc, cursor, depth)?))
        }
        StmtStart::Name(id) => {
            let mark = cursor.mark();
            cursor.advance();
            named_stmt(alloc, cursor, Name { id, mark }, depth)
        }
        StmtStart::Step(step) => {
            let change = before(alloc, cursor, step, depth)?;
            cursor.expect(Kind::Punct(Punct::Semicolon))?;
            Ok(Stmt::Change(change))
        }
        StmtStart::If => if_stmt(alloc, cursor, depth),
        StmtStart::While => while_stmt(alloc, cursor, depth),
        StmtStart::For => for_stmt(alloc, cursor, depth),
        StmtStart::Break => {
            let mark = cursor.mark();
            cursor.advance();
            cursor.expect(Kind::Punct(Punct::Semicolon))?;
            Ok(Stmt::Break(mark))
        }
        StmtStart::Continue => {
            let mark = cursor.mark();
            cursor.advance();
            cursor.expect(Kind::Punct(Punct::Semicolon))?;
            Ok(Stmt::Continue(mark))
        }
        StmtStart::Return => return_stmt(alloc, cursor, depth),
        StmtStart::Pragma => pragma(alloc, cursor, depth),
        StmtStart::Other => Err(ProductionError::Syntax),
    }
}

/// `stmt`, where it is a part of another.
#[cycle(statements)]
fn boxed(alloc: Global, cursor: &mut Cursor<'_>, depth: u32) -> Result<Box<Stmt>, ProductionError>
    ensures gives { Gives (λ s. stmt_tree (box_value s)) result cursor.new (stmt_on (inner depth) cursor.old) }
    ensures within { length cursor.new ≤ length cursor.old }
{
    let stmt = stmt(alloc, cursor, depth)?;
    Ok(Box::new(alloc, stmt)?)
}

/// `block = "{" { declare | stmt } "}"`, from what follows its `{`.
#[cycle(statements)]
#[tactic(auto, unfolding(os_parser_grammar::specs::Statements::block))]
pub(crate) fn block(
    alloc: Global,
    cursor: &mut Cursor<'_>,
    depth: u32,
) -> Result<List<Stmt>, ProductionError>
    ensures gives { Gives stmts_tree result cursor.new (block (inner depth) cursor.old) }
    ensures within { length cursor.new ≤ length cursor.old }
{
    let mut stmts = List::new(alloc);
    while !cursor.is_at(Kind::Punct(Punct::CloseBrace)) {
        stmts.push(block_item(alloc, cursor, depth)?)?;
    }
    cursor.advance();
    Ok(stmts)
}

/// `declare | stmt`, a part of `block`.
#[cycle(statements)]
#[tactic(auto, unfolding(os_parser_grammar::specs::Statements::inner_item, os_parser_grammar::specs::Statements::block_item))]
fn block_item(alloc: Global, cursor: &mut Cursor<'_>, depth: u32) -> Result<Stmt, ProductionError>
    ensures gives { Gives stmt_tree result cursor.new (inner_item (inner depth) cursor.old) }
    ensures within { length cursor.new ≤ length cursor.old }
    ensures taken { OnOk result (length cursor.new ≤ length (after cursor.old)) }
{
    let depth = deeper(depth)?;
    if begins_type(cursor) {
        let ty = type_words(cursor)?;
        let declarators = declared(alloc, cursor, depth)?;
        return Ok(Stmt::Declare(ty, declarators));
    }
    stmt(alloc, cursor, depth)
}

/// `"if" "(" expr ")" stmt [ "else" stmt ]`, from its `if` on.
#[cycle(statements)]
#[tactic(auto, unfolding(os_parser_grammar::specs::Statements::if_stmt))]
fn if_stmt(alloc: Global, cursor: &mut Cursor<'_>, depth: u32) -> Result<Stmt, ProductionError>
    ensures gives { Gives stmt_tree result cursor.new (if_stmt (inner depth) cursor.old) }
    ensures within { length cursor.new ≤ length cursor.old }
    ensures taken { OnOk result (length cursor.new ≤ length (after cursor.old)) }
{
    let depth = deeper(depth)?;
    cursor.advance();
    let condition = condition(alloc, cursor, depth)?;
    let first = boxed(alloc, cursor, depth)?;
    if !cursor.is_at(Kind::Key(Key::Else)) {
        return Ok(Stmt::If(condition, first, None));
    }
    cursor.advance();
    let second = boxed(alloc, cursor, depth)?;
    Ok(Stmt::If(condition, first, Some(second)))
}

/// `"while" "(" expr ")" stmt`, from its `while` on.
#[cycle(statements)]
#[tactic(auto, unfolding(os_parser_grammar::specs::Statements::while_stmt))]
fn while_stmt(alloc: Global, cursor: &mut Cursor<'_>, depth: u32) -> Result<Stmt, ProductionError>
    ensures gives { Gives stmt_tree result cursor.new (while_stmt (inner depth) cursor.old) }
    ensures within { length cursor.new ≤ length cursor.old }
    ensures taken { OnOk result (length cursor.new ≤ length (after cursor.old)) }
{
    let depth = deeper(depth)?;
    cursor.advance();
    let condition = condition(alloc, cursor, depth)?;
    let body = boxed(alloc, cursor, depth)?;
    Ok(Stmt::While(condition, body))
}

/// `"for" "(" ( declare1 | [ change ] ";" ) [ expr ] ";" [ change ] ")" stmt`, from its `for` on.
#[cycle(statements)]
#[tactic(auto, unfolding(os_parser_grammar::specs::Statements::for_stmt))]
fn for_stmt(alloc: Global, cursor: &mut Cursor<'_>, depth: u32) -> Result<Stmt, ProductionError>
    ensures gives { Gives stmt_tree result cursor.new (for_stmt (inner depth) cursor.old) }
    ensures within { length cursor.new ≤ length cursor.old }
    ensures taken { OnOk result (length cursor.new ≤ length (after cursor.old)) }
{
    let inner = deeper(depth)?;
    cursor.advance();
    let head = head(alloc, cursor, depth)?;
    let head = Box::new(alloc, head)?;
    let body = boxed(alloc, cursor, inner)?;
    Ok(Stmt::For(head, body))
}

/// `PragmaStart "omp"` and one of `"task"`, `"tick"` and `"taskwait"`, with what belongs to it.
#[cycle(statements)]
#[tactic(auto, using(os_parser_grammar::proofs::Depths::readers), unfolding(os_parser_grammar::specs::Statements::pragma))]
fn pragma(alloc: Global, cursor: &mut Cursor<'_>, depth: u32) -> Result<Stmt, ProductionError>
    ensures gives { Gives stmt_tree result cursor.new (pragma (inner depth) cursor.old) }
    ensures within { length cursor.new ≤ length cursor.old }
    ensures taken { OnOk result (length cursor.new ≤ length (after cursor.old)) }
{
    let mark = cursor.mark();
    cursor.advance();
    cursor.expect(Kind::Name(OMP))?;
    if cursor.is_at(Kind::Name(TASK)) {
        return task(alloc, cursor, mark, depth);
    }
    if cursor.is_at(Kind::Name(TICK)) {
        return tick(alloc, cursor, mark, depth);
    }
    if cursor.is_at(Kind::Name(TASKWAIT)) {
        cursor.advance();
        return taskwait(cursor, mark);
    }
    Err(ProductionError::Syntax)
}

/// `"task" { [ "," ] clause } PragmaEnd stmt`, from its word on.
#[cycle(statements)]
#[tactic(auto, unfolding(os_parser_grammar::specs::Statements::task))]
fn task(
    alloc: Global,
    cursor: &mut Cursor<'_>,
    mark: Mark,
    depth: u32,
) -> Result<Stmt, ProductionError>
    ensures gives { Gives stmt_tree result cursor.new (task mark (inner depth) cursor.old) }
    ensures within { length cursor.new ≤ length cursor.old }
{
    let inner = deeper(depth)?;
    cursor.advance();
    let clauses = clauses(alloc, cursor, depth)?;
    cursor.expect(Kind::PragmaEnd)?;
    let body = stmt(alloc, cursor, inner)?;
    let site = TaskSite {
        mark,
        clauses,
        body,
    };
    Ok(Stmt::Task(Box::new(alloc, site)?))
}
