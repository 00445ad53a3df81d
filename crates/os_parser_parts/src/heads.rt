//! The heads of statements.

ghost use Rattle.std.specs.Prelude.{◌≡◌, ◌+◌, ◌-◌, ◌≤◌, ◌<◌, length, map, option_map};
ghost use Rattle.os_ast.specs.Views.{expr_tree, declarator_tree, change_tree, start_tree};
ghost use Rattle.os_parser_grammar.specs.Expressions.{below, layer};
ghost use Rattle.os_parser_expressions.specs.Gives.{Gives};
ghost use Rattle.os_parser_grammar.specs.Statements.{condition, start, head_test, step, change, begins_type, type_words, head_declared, head, head_tree};

use crate::parts::{begins_type, change, head_declared, type_words};
use os_ast::{Change, Expr, Head, Start};
use os_lexer::{Kind, Punct};
use os_parser_expressions::{Cursor, ProductionError, deeper, expr};
use std::alloc::Global;

/// `"(" expr ")"`, behind `if` and `while`.
#[tactic(auto, unfolding(os_parser_grammar::specs::Statements::condition))]
pub fn condition(
    alloc: Global,
    cursor: &mut Cursor<'_>,
    depth: u32,
) -> Result<Expr, ProductionError>
    ensures gives { Gives expr_tree result cursor.new (condition (layer (below depth)) cursor.old) }
    ensures within { length cursor.new ≤ length cursor.old }
{
    cursor.expect(Kind::Punct(Punct::OpenParen))?;
    let value = expr(alloc, cursor, depth)?;
    cursor.expect(Kind::Punct(Punct::CloseParen))?;
    Ok(value)
}

/// `declare1 | [ change ] ";"`, behind `for` and its parenthesis.
#[tactic(auto, unfolding(os_parser_grammar::specs::Statements::start))]
fn start(alloc: Global, cursor: &mut Cursor<'_>, depth: u32) -> Result<Start, ProductionError>
    ensures gives { Gives start_tree result cursor.new (start (below depth) cursor.old) }
    ensures within { length cursor.new ≤ length cursor.old }
{
    if cursor.is_at(Kind::Punct(Punct::Semicolon)) {
        cursor.advance();
        return Ok(Start::Empty);
    }
    if begins_type(cursor) {
        let ty = type_words(cursor)?;
        let declarators = head_declared(alloc, cursor, depth)?;
        return Ok(Start::Declare(ty, declarators));
    }
    let change = change(alloc, cursor, depth)?;
    cursor.expect(Kind::Punct(Punct::Semicolon))?;
    Ok(Start::Change(change))
}

/// `[ expr ] ";"`, in the middle of the head of a `for`.
#[tactic(auto, unfolding(os_parser_grammar::specs::Statements::head_test))]
fn test(alloc: Global, cursor: &mut Cursor<'_>, depth: u32) -> Result<Option<Expr>, ProductionError>
    ensures gives { Gives (λ e. option_map expr_tree e) result cursor.new (head_test (layer (below depth)) cursor.old) }
    ensures within { length cursor.new ≤ length cursor.old }
{
    if cursor.is_at(Kind::Punct(Punct::Semicolon)) {
        cursor.advance();
        return Ok(None);
    }
    let value = expr(alloc, cursor, depth)?;
    cursor.expect(Kind::Punct(Punct::Semicolon))?;
    Ok(Some(value))
}

/// `[ change ] ")"`, at the end of the head of a `for`.
#[tactic(auto, unfolding(os_parser_grammar::specs::Statements::step))]
fn step(
    alloc: Global,
    cursor: &mut Cursor<'_>,
    depth: u32,
) -> Result<Option<Change>, ProductionError>
    ensures gives { Gives (λ c. option_map change_tree c) result cursor.new (step (below depth) cursor.old) }
    ensures within { length cursor.new ≤ length cursor.old }
{
    if cursor.is_at(Kind::Punct(Punct::CloseParen)) {
        cursor.advance();
        return Ok(None);
    }
    let change = change(alloc, cursor, depth)?;
    cursor.expect(Kind::Punct(Punct::CloseParen))?;
    Ok(Some(change))
}

/// `"(" ( declare1 | [ change ] ";" ) [ expr ] ";" [ change ] ")"`, behind `for`.
#[tactic(auto, unfolding(os_parser_grammar::specs::Statements::head))]
pub fn head(alloc: Global, cursor: &mut Cursor<'_>, depth: u32) -> Result<Head, ProductionError>
    ensures gives { Gives head_tree result cursor.new (head (below depth) cursor.old) }
    ensures within { length cursor.new ≤ length cursor.old }
{
    let inner = deeper(depth)?;
    cursor.expect(Kind::Punct(Punct::OpenParen))?;
    let start = start(alloc, cursor, depth)?;
    let test = test(alloc, cursor, inner)?;
    let step = step(alloc, cursor, depth)?;
    Ok(Head { start, test, step })
}
