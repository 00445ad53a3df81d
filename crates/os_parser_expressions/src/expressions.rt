//! Expressions, production by production.

ghost use Rattle.std.specs.Prelude.{◌≡◌, ◌+◌, ◌-◌, ◌≤◌, ◌<◌, length, IfOk, IfErr, box_value};
ghost use Rattle.os_ast.specs.Views.{expr_tree, target_tree, index_tree, args_tree, links_tree};
ghost use Rattle.os_parser_grammar.specs.Expressions.{below, layer, chained, branches, operand, chains, linked};
ghost use Rattle.os_parser_grammar.specs.Expressions.{expr_on, named, target_of, index, args, some_args, paren, sign};
ghost use Rattle.os_parser_expressions.specs.Gives.{Gives};
ghost use Rattle.os_parser_expressions.specs.declared.production_error.ProductionError.TheVariants as errors;

use crate::cursor::Cursor;
use crate::depth::deeper;
use crate::operators::{level_at, operator_at, start_at};
use crate::production_error::ProductionError;
use os_ast::{Binary, Call, Expr, Index, Link, Mark, Name, Target, Unary};
use os_io::List;
use os_lexer::{Kind, Punct};
use os_parser_grammar::OperandStart;
use std::alloc::Global;

/// The precedence of a unary, one above that of the chains that bind closest.
const UNARY_PRECEDENCE: u32 = 11;

/// `expr = or [ "?" expr ":" expr ]`
#[cycle(expressions)]
#[tactic(auto, unfolding(os_parser_grammar::specs::Expressions::expr_on))]
pub fn expr(alloc: Global, cursor: &mut Cursor<'_>, depth: u32) -> Result<Expr, ProductionError>
    ensures gives { Gives expr_tree result cursor.new (expr_on (below depth) cursor.old) }
    ensures within { length cursor.new ≤ length cursor.old }
{
    let condition = chain(alloc, cursor, 1, depth)?;
    if !cursor.is_at(Kind::Punct(Punct::Question)) {
        return Ok(condition);
    }
    let condition = Box::new(alloc, condition)?;
    branches(alloc, cursor, condition, depth)
}

/// `expr`, where it is a part of another.
#[cycle(expressions)]
fn boxed(alloc: Global, cursor: &mut Cursor<'_>, depth: u32) -> Result<Box<Expr>, ProductionError>
    ensures gives { Gives (λ e. expr_tree (box_value e)) result cursor.new (expr_on (below depth) cursor.old) }
    ensures within { length cursor.new ≤ length cursor.old }
{
    let expr = expr(alloc, cursor, depth)?;
    Ok(Box::new(alloc, expr)?)
}

/// `"?" expr ":" expr`, the rest of a choice, from its `?` on.
#[cycle(expressions)]
#[tactic(auto, unfolding(os_parser_grammar::specs::Expressions::branches))]
fn branches(
    alloc: Global,
    cursor: &mut Cursor<'_>,
    condition: Box<Expr>,
    depth: u32,
) -> Result<Expr, ProductionError>
    ensures gives { Gives expr_tree result cursor.new (branches (below depth) (expr_tree (box_value condition)) cursor.old) }
    ensures within { length cursor.new ≤ length cursor.old }
{
    let depth = deeper(depth)?;
    cursor.advance();
    let first = boxed(alloc, cursor, depth)?;
    cursor.expect(Kind::Punct(Punct::Colon))?;
    let second = boxed(alloc, cursor, depth)?;
    Ok(Expr::Choice(condition, first, second))
}

/// The production of this precedence: from 1 on `or`, `and`, `bor`, `bxor`, `band`, `equal`, `order`, `shift`, `sum`,
/// `prod` and, at 11, `unary`.
#[cycle(expressions)]
#[tactic(auto, using(os_parser_grammar::proofs::Chaining::chaining))]
fn chain(
    alloc: Global,
    cursor: &mut Cursor<'_>,
    lowest: u32,
    depth: u32,
) -> Result<Expr, ProductionError>
    requires from { 1 ≤ lowest }
    requires to { lowest ≤ 11 }
    ensures gives { Gives expr_tree result cursor.new (chains (11 - lowest) (operand (below depth)) cursor.old) }
    ensures within { length cursor.new ≤ length cursor.old }
{
    let mut first = operand(alloc, cursor, depth)?;
    let mut precedence = UNARY_PRECEDENCE;
    while lowest < precedence {
        precedence -= 1;
        first = linked(alloc, cursor, precedence, first, depth)?;
    }
    Ok(first)
}

/// `{ operator operand }` with the operators of one precedence: its chain, from what follows the first operand, or that
/// operand where no operator of the precedence follows.
#[cycle(expressions)]
#[tactic(auto, using(os_parser_grammar::proofs::Chaining::chaining), unfolding(os_parser_grammar::specs::Expressions::linked))]
fn linked(
    alloc: Global,
    cursor: &mut Cursor<'_>,
    precedence: u32,
    first: Expr,
    depth: u32,
) -> Result<Expr, ProductionError>
    requires from { 1 ≤ precedence }
    requires to { precedence ≤ 10 }
    ensures gives { Gives expr_tree result cursor.new
        (linked precedence (chains (10 - precedence) (operand (below depth))) (expr_tree first) cursor.old) }
    ensures within { length cursor.new ≤ length cursor.old }
{
    let mut links = List::new(alloc);
    while let Some(op) = operator_at(precedence, cursor) {
        let mark = cursor.mark();
        cursor.advance();
        let right = chain(alloc, cursor, precedence + 1, depth)?;
        links.push(Link { op, mark, right })?;
    }
    chained(alloc, precedence, first, links)
}

/// A chain with these links, or its first operand where there are none.
#[tactic(auto, using(crate::proofs::Trees::trees))]
fn chained(
    alloc: Global,
    precedence: u32,
    first: Expr,
    links: List<Link>,
) -> Result<Expr, ProductionError>
    ensures chain { IfOk result (λ e. expr_tree e ≡ chained precedence (expr_tree first) (links_tree links)) }
    ensures memory { IfErr result (λ e. e ≡ errors.Memory) }
{
    if links.len() == 0 {
        return Ok(first);
    }
    Ok(Expr::Chain(level_at(precedence), Box::new(alloc, first)?, links))
}

/// `unary = ( "-" | "+" | "!" | "~" ) unary | primary`, and `primary = number | target | call | "(" expr ")"`.
#[cycle(expressions)]
#[tactic(auto, unfolding(os_parser_grammar::specs::Expressions::operand, os_parser_grammar::specs::Expressions::operand_by))]
fn operand(alloc: Global, cursor: &mut Cursor<'_>, depth: u32) -> Result<Expr, ProductionError>
    ensures gives { Gives expr_tree result cursor.new (operand (below depth) cursor.old) }
    ensures within { length cursor.new ≤ length cursor.old }
{
    match start_at(cursor) {
        OperandStart::Number(number) => {
            cursor.advance();
            Ok(Expr::Number(number))
        }
        OperandStart::Wide(number) => {
            cursor.advance();
            Ok(Expr::Wide(number))
        }
        OperandStart::Name(id) => {
            let mark = cursor.mark();
            cursor.advance();
            named(alloc, cursor, Name { id, mark }, depth)
        }
        OperandStart::Paren => paren(alloc, cursor, depth),
        OperandStart::Sign(op) => sign(alloc, cursor, op, depth),
        OperandStart::Other => Err(ProductionError::Syntax),
    }
}

/// `( "-" | "+" | "!" | "~" ) unary`, from its operator on.
#[cycle(expressions)]
#[tactic(auto, unfolding(os_parser_grammar::specs::Expressions::sign))]
fn sign(
    alloc: Global,
    cursor: &mut Cursor<'_>,
    op: Unary,
    depth: u32,
) -> Result<Expr, ProductionError>
    ensures gives { Gives expr_tree result cursor.new (sign op (below depth) cursor.old) }
    ensures within { length cursor.new ≤ length cursor.old }
{
    let depth = deeper(depth)?;
    let mark = cursor.mark();
    cursor.advance();
    let right = operand(alloc, cursor, depth)?;
    Ok(Expr::Unary(op, mark, Box::new(alloc, right)?))
}

/// `"(" expr ")"`, from its `(` on.
#[cycle(expressions)]
#[tactic(auto, unfolding(os_parser_grammar::specs::Expressions::paren))]
fn paren(alloc: Global, cursor: &mut Cursor<'_>, depth: u32) -> Result<Expr, ProductionError>
    ensures gives { Gives expr_tree result cursor.new (paren (below depth) cursor.old) }
    ensures within { length cursor.new ≤ length cursor.old }
{
    let depth = deeper(depth)?;
    cursor.advance();
    let inner = boxed(alloc, cursor, depth)?;
    cursor.expect(Kind::Punct(Punct::CloseParen))?;
    Ok(Expr::Paren(inner))
}

/// `target | call`, from what follows its name on.
#[cycle(expressions)]
#[tactic(auto, using(crate::proofs::Trees::trees), unfolding(os_parser_grammar::specs::Expressions::named))]
fn named(
    alloc: Global,
    cursor: &mut Cursor<'_>,
    name: Name,
    depth: u32,
) -> Result<Expr, ProductionError>
    ensures gives { Gives expr_tree result cursor.new (named (below depth) name cursor.old) }
    ensures within { length cursor.new ≤ length cursor.old }
{
    if cursor.is_at(Kind::Punct(Punct::OpenParen)) {
        let args = args(alloc, cursor, depth)?;
        return Ok(Expr::Call(Call { name, args }));
    }
    let target = target(alloc, cursor, name, depth)?;
    Ok(Expr::Place(target))
}

/// `target = name [ "[" expr "]" ]`, from what follows its name on.
#[cycle(expressions)]
#[tactic(auto, unfolding(os_parser_grammar::specs::Expressions::target_of))]
pub fn target(
    alloc: Global,
    cursor: &mut Cursor<'_>,
    name: Name,
    depth: u32,
) -> Result<Target, ProductionError>
    ensures gives { Gives target_tree result cursor.new (target_of (below depth) name cursor.old) }
    ensures within { length cursor.new ≤ length cursor.old }
{
    if !cursor.is_at(Kind::Punct(Punct::OpenBracket)) {
        return Ok(Target { name, index: None });
    }
    let index = index(alloc, cursor, depth)?;
    Ok(Target {
        name,
        index: Some(Box::new(alloc, index)?),
    })
}

/// `"[" expr "]"`, from its `[` on.
#[cycle(expressions)]
#[tactic(auto, unfolding(os_parser_grammar::specs::Expressions::index))]
pub fn index(alloc: Global, cursor: &mut Cursor<'_>, depth: u32) -> Result<Index, ProductionError>
    ensures gives { Gives index_tree result cursor.new (index (below depth) cursor.old) }
    ensures within { length cursor.new ≤ length cursor.old }
{
    let depth = deeper(depth)?;
    let mark = cursor.mark();
    cursor.advance();
    let value = expr(alloc, cursor, depth)?;
    cursor.expect(Kind::Punct(Punct::CloseBracket))?;
    Ok(Index { mark, value })
}

/// `"(" [ expr { "," expr } ] ")"`, what follows the name of a `call`.
#[cycle(expressions)]
#[tactic(auto, unfolding(os_parser_grammar::specs::Expressions::args))]
pub fn args(
    alloc: Global,
    cursor: &mut Cursor<'_>,
    depth: u32,
) -> Result<List<Expr>, ProductionError>
    ensures gives { Gives args_tree result cursor.new (args (below depth) cursor.old) }
    ensures within { length cursor.new ≤ length cursor.old }
{
    cursor.advance();
    if cursor.is_at(Kind::Punct(Punct::CloseParen)) {
        cursor.advance();
        return Ok(List::new(alloc));
    }
    let depth = deeper(depth)?;
    let args = some_args(alloc, cursor, depth)?;
    cursor.expect(Kind::Punct(Punct::CloseParen))?;
    Ok(args)
}

/// `expr { "," expr }`, the arguments of a `call`.
#[cycle(expressions)]
#[tactic(auto, using(os_parser_grammar::proofs::Chaining::listing), unfolding(os_parser_grammar::specs::Expressions::some_args))]
fn some_args(
    alloc: Global,
    cursor: &mut Cursor<'_>,
    depth: u32,
) -> Result<List<Expr>, ProductionError>
    ensures gives { Gives args_tree result cursor.new (some_args (layer (below depth)) cursor.old) }
    ensures within { length cursor.new ≤ length cursor.old }
{
    let mut args = List::new(alloc);
    args.push(expr(alloc, cursor, depth)?)?;
    while cursor.is_at(Kind::Punct(Punct::Comma)) {
        cursor.advance();
        args.push(expr(alloc, cursor, depth)?)?;
    }
    Ok(args)
}
