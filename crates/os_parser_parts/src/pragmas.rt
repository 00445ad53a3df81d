//! The clauses of tasks, and ticks.

ghost use Rattle.std.specs.Prelude.{◌≡◌, ◌+◌, ◌-◌, ◌≤◌, ◌<◌, length, map, option_map, OnOk};
ghost use Rattle.os_ast.specs.Trees.{ClauseItemTree};
ghost use Rattle.os_ast.specs.declared.expr.Name.{Name};
ghost use Rattle.os_ast.specs.Views.{expr_tree, target_tree, index_tree, join_tree, clause_item_tree, clause_kind_tree, clause_tree, stmt_tree};
ghost use Rattle.os_parser_grammar.specs.Expressions.{below};
ghost use Rattle.os_parser_expressions.specs.Gives.{Gives};
ghost use Rattle.os_parser_grammar.specs.Reading.{Same, after};
ghost use Rattle.os_parser_grammar.specs.Statements.{name, join, alone, clause_item, clause_kind, clause, clauses, first_clause};
ghost use Rattle.os_parser_grammar.specs.Statements.{some_clauses, in_parens, ticked, tick_tree, tick, taskwait};

use crate::comma_list::{Production, comma_list};
use crate::parts::{name, size, target};
use os_ast::{Clause, ClauseItem, ClauseKind, Join, Mark, Name, Stmt, Target, TickSite};
use os_io::List;
use os_lexer::names::{FIRSTPRIVATE, INPUT, OUTPUT};
use os_lexer::{Kind, Punct};
use os_parser_expressions::{Cursor, ProductionError, deeper, expr};
use std::alloc::Global;

/// `">>" name [ "[" expr "]" ]` of an `in`, or the same of an `out` with `"<<"`, from the arrow on.
#[tactic(auto, unfolding(os_parser_grammar::specs::Statements::join))]
fn join(alloc: Global, cursor: &mut Cursor<'_>, depth: u32) -> Result<Join, ProductionError>
    ensures gives { Gives join_tree result cursor.new (join (below depth) cursor.old) }
    ensures within { length cursor.new ≤ length cursor.old }
{
    let mark = cursor.mark();
    cursor.advance();
    let name = name(cursor)?;
    let burst = size(alloc, cursor, depth)?;
    Ok(Join { mark, name, burst })
}

/// An `in` or `out` that is a `name` alone, from what was read as its `stream`.
fn alone(cursor: &mut Cursor<'_>, stream: Target) -> Result<ClauseItem, ProductionError>
    ensures gives { Gives clause_item_tree result cursor.new (alone (target_tree stream) cursor.old) }
    ensures within { length cursor.new ≤ length cursor.old }
{
    match stream.index {
        Some(_) => Err(ProductionError::Syntax),
        None => Ok(ClauseItem {
            stream: Target {
                name: stream.name,
                index: None,
            },
            window: None,
        }),
    }
}

/// `in = stream ">>" name [ "[" expr "]" ] | name`, or `out`, the same with `"<<"`.
#[derive(Drop)]
struct InOrOut {
    arrow: Punct,
    depth: u32,
}

impl Production for InOrOut {
    type Item = ClauseItem;

    ghost Tree = { ClauseItemTree };

    ghost view = { clause_item_tree };

    ghost reads = { λ part. clause_item part.arrow (below part.depth) };

    #[tactic(auto, unfolding(os_parser_grammar::specs::Statements::clause_item))]
    fn read(&self, alloc: Global, cursor: &mut Cursor<'_>) -> Result<ClauseItem, ProductionError> {
        let stream = target(alloc, cursor, self.depth)?;
        if !cursor.is_at(Kind::Punct(self.arrow)) {
            return alone(cursor, stream);
        }
        let window = join(alloc, cursor, self.depth)?;
        Ok(ClauseItem {
            stream,
            window: Some(window),
        })
    }
}

/// A `name` that a task takes a copy of.
struct Copied;

impl Production for Copied {
    type Item = Name;

    ghost Tree = { Name };

    ghost view = { Same };

    ghost reads = { λ part. name };

    fn read(&self, alloc: Global, cursor: &mut Cursor<'_>) -> Result<Name, ProductionError> {
        name(cursor)
    }
}

/// `"(" part { "," part } ")"`
#[tactic(auto, unfolding(os_parser_grammar::specs::Statements::in_parens))]
fn in_parens<P: Production>(
    alloc: Global,
    cursor: &mut Cursor<'_>,
    part: &P,
) -> Result<List<P::Item>, ProductionError>
    ensures gives { Gives (map P.view) result cursor.new (in_parens (P.reads part.now) cursor.old) }
    ensures within { length cursor.new ≤ length cursor.old }
{
    cursor.expect(Kind::Punct(Punct::OpenParen))?;
    let items = comma_list(alloc, cursor, part)?;
    cursor.expect(Kind::Punct(Punct::CloseParen))?;
    Ok(items)
}

/// `clause`: one of the words `"input"`, `"output"` and `"firstprivate"`, and what it lists.
#[tactic(auto, using(os_parser_grammar::proofs::Lists::same), unfolding(os_parser_grammar::specs::Statements::clause_kind))]
fn clause_kind(
    alloc: Global,
    cursor: &mut Cursor<'_>,
    depth: u32,
) -> Result<ClauseKind, ProductionError>
    ensures gives { Gives clause_kind_tree result cursor.new (clause_kind (below depth) cursor.old) }
    ensures within { length cursor.new ≤ length cursor.old }
    ensures taken { OnOk result (length cursor.new ≤ length (after cursor.old)) }
{
    if cursor.is_at(Kind::Name(INPUT)) {
        cursor.advance();
        let part = InOrOut {
            arrow: Punct::ShiftRight,
            depth,
        };
        let items = in_parens(alloc, cursor, &part)?;
        return Ok(ClauseKind::Input(items));
    }
    if cursor.is_at(Kind::Name(OUTPUT)) {
        cursor.advance();
        let part = InOrOut {
            arrow: Punct::ShiftLeft,
            depth,
        };
        let items = in_parens(alloc, cursor, &part)?;
        return Ok(ClauseKind::Output(items));
    }
    if cursor.is_at(Kind::Name(FIRSTPRIVATE)) {
        cursor.advance();
        let names = in_parens(alloc, cursor, &Copied)?;
        return Ok(ClauseKind::Firstprivate(names));
    }
    Err(ProductionError::Syntax)
}

/// The first `clause` of a task, before which no comma stands.
#[tactic(auto, unfolding(os_parser_grammar::specs::Statements::first_clause))]
fn first_clause(
    alloc: Global,
    cursor: &mut Cursor<'_>,
    depth: u32,
) -> Result<Clause, ProductionError>
    ensures gives { Gives clause_tree result cursor.new (first_clause (below depth) cursor.old) }
    ensures within { length cursor.new ≤ length cursor.old }
{
    let kind = clause_kind(alloc, cursor, depth)?;
    Ok(Clause { comma: false, kind })
}

/// `[ "," ] clause`, a later one of a task.
#[tactic(auto, using(os_parser_grammar::proofs::Tokens::lengths), unfolding(os_parser_grammar::specs::Statements::clause))]
fn clause(alloc: Global, cursor: &mut Cursor<'_>, depth: u32) -> Result<Clause, ProductionError>
    ensures gives { Gives clause_tree result cursor.new (clause (below depth) cursor.old) }
    ensures within { length cursor.new ≤ length cursor.old }
    ensures taken { OnOk result (length cursor.new ≤ length (after cursor.old)) }
{
    if cursor.is_at(Kind::Punct(Punct::Comma)) {
        cursor.advance();
        let kind = clause_kind(alloc, cursor, depth)?;
        return Ok(Clause { comma: true, kind });
    }
    let kind = clause_kind(alloc, cursor, depth)?;
    Ok(Clause { comma: false, kind })
}

/// `{ [ "," ] clause }` where a task has some, without a comma before the first.
fn some_clauses(
    alloc: Global,
    cursor: &mut Cursor<'_>,
    depth: u32,
) -> Result<List<Clause>, ProductionError>
    ensures gives { Gives (map clause_tree) result cursor.new (some_clauses (below depth) cursor.old) }
    ensures within { length cursor.new ≤ length cursor.old }
{
    let mut clauses = List::new(alloc);
    clauses.push(first_clause(alloc, cursor, depth)?)?;
    while !cursor.is_at(Kind::PragmaEnd) {
        clauses.push(clause(alloc, cursor, depth)?)?;
    }
    Ok(clauses)
}

/// `{ [ "," ] clause }`, to the end of the task's line.
#[tactic(auto, unfolding(os_parser_grammar::specs::Statements::clauses))]
pub fn clauses(
    alloc: Global,
    cursor: &mut Cursor<'_>,
    depth: u32,
) -> Result<List<Clause>, ProductionError>
    ensures gives { Gives (map clause_tree) result cursor.new (clauses (below depth) cursor.old) }
    ensures within { length cursor.new ≤ length cursor.old }
{
    if cursor.is_at(Kind::PragmaEnd) {
        return Ok(List::new(alloc));
    }
    some_clauses(alloc, cursor, depth)
}

/// `"tick" "(" stream ">>" expr ")"`, from its word on.
#[tactic(auto, unfolding(os_parser_grammar::specs::Statements::ticked))]
fn ticked(
    alloc: Global,
    cursor: &mut Cursor<'_>,
    mark: Mark,
    depth: u32,
) -> Result<TickSite, ProductionError>
    ensures gives { Gives tick_tree result cursor.new (ticked mark (below depth) cursor.old) }
    ensures within { length cursor.new ≤ length cursor.old }
{
    let deeper_by_one = deeper(depth)?;
    cursor.advance();
    cursor.expect(Kind::Punct(Punct::OpenParen))?;
    let stream = target(alloc, cursor, depth)?;
    let arrow = cursor.expect(Kind::Punct(Punct::ShiftRight))?;
    let amount = expr(alloc, cursor, deeper_by_one)?;
    cursor.expect(Kind::Punct(Punct::CloseParen))?;
    Ok(TickSite {
        mark,
        stream,
        arrow,
        amount,
    })
}

/// `"tick" "(" stream ">>" expr ")" PragmaEnd`, from its word on.
#[tactic(auto, unfolding(os_parser_grammar::specs::Statements::tick))]
pub fn tick(
    alloc: Global,
    cursor: &mut Cursor<'_>,
    mark: Mark,
    depth: u32,
) -> Result<Stmt, ProductionError>
    ensures gives { Gives stmt_tree result cursor.new (tick mark (below depth) cursor.old) }
    ensures within { length cursor.new ≤ length cursor.old }
{
    let site = ticked(alloc, cursor, mark, depth)?;
    let site = Box::new(alloc, site)?;
    cursor.expect(Kind::PragmaEnd)?;
    Ok(Stmt::Tick(site))
}

/// `"taskwait" PragmaEnd`, from what follows its word.
#[tactic(auto, unfolding(os_parser_grammar::specs::Statements::taskwait))]
pub fn taskwait(cursor: &mut Cursor<'_>, mark: Mark) -> Result<Stmt, ProductionError>
    ensures gives { Gives stmt_tree result cursor.new (taskwait mark cursor.old) }
    ensures within { length cursor.new ≤ length cursor.old }
{
    cursor.expect(Kind::PragmaEnd)?;
    Ok(Stmt::Taskwait(mark))
}
