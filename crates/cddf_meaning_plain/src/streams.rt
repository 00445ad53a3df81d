//! What the control program does with streams: clause items, tasks and ticks.

ghost use Rattle.std.specs.Prelude.{◌≤◌, map, option_map};
ghost use Rattle.cddf_meaning.specs.Functions.{file_of};
ghost use Rattle.cddf_meaning.specs.Run as runs;
ghost use Rattle.cddf_meaning.specs.Streams.{items_claims, item_claim, joined, run_tick, stream_number};
ghost use Rattle.os_ast.specs.ClauseMembers as clause;
ghost use Rattle.os_ast.specs.Trees as tree;
ghost use Rattle.os_ast.specs.Views.{clause_item_tree, clause_kind_tree, clause_tree, expr_tree, item_tree, join_tree, stmt_tree, target_tree};
ghost use Rattle.cddf_meaning_plain_state.specs.Stops.{Adds, Evaluates, GoesOn};
ghost use Rattle.cddf_meaning_plain_tasks.specs.Arounds.{around_of};

use crate::value::value;
use cddf_meaning_plain_state::functions::take_turn;
use cddf_meaning_plain_state::streams::{
    burst_of, captured_values, claim_of, cursor_move, site_number,
};
use cddf_meaning_plain_state::{BodyState, Stop};
use cddf_meaning_plain_tasks::Around;
use flow_core_laws::Claim;
use os_ast::{Clause, ClauseItem, ClauseKind, Direction, Item, Join, Target, TaskSite, TickSite};
use os_io::List;
use std::alloc::Global;

/// The number of the stream of an item or a tick.
#[cycle(meaning)]
fn stream_number(
    alloc: Global,
    file: &[Item],
    stream: &Target,
    state: &BodyState,
    turns: &mut u64,
) -> Result<u32, Stop>
    ensures counts { Evaluates result turns.new (stream_number (file_of (map item_tree file.now)) (target_tree stream.now) state.now turns.old) }
    ensures fewer { turns.new ≤ turns.old }
{
    let streams = state.streams(stream.name.id);
    match &stream.index {
        None => Ok(streams.first),
        Some(index) => {
            let number = value(alloc, file, &index.value, state, turns)?;
            streams.at(index.mark.line, number)
        }
    }
}

/// What an item of a task claims.
#[cycle(meaning)]
fn item_claim(
    alloc: Global,
    file: &[Item],
    direction: Direction,
    item: &ClauseItem,
    state: &BodyState,
    turns: &mut u64,
) -> Result<Claim, Stop>
    ensures claims { Evaluates result turns.new (item_claim (file_of (map item_tree file.now)) direction (clause_item_tree item.now) state.now turns.old) }
    ensures fewer { turns.new ≤ turns.old }
{
    let stream = stream_number(alloc, file, &item.stream, state, turns)?;
    match &item.window {
        None => Ok(claim_of(direction, stream, 1, 1)),
        Some(join) => joined(alloc, file, direction, stream, join, state, turns),
    }
}

/// What an item claims whose window or scalar stands behind an arrow.
#[cycle(meaning)]
fn joined(
    alloc: Global,
    file: &[Item],
    direction: Direction,
    stream: u32,
    join: &Join,
    state: &BodyState,
    turns: &mut u64,
) -> Result<Claim, Stop>
    ensures claims { Evaluates result turns.new (joined (file_of (map item_tree file.now)) direction stream
        (option_map join_tree (Some join.now)) state.now turns.old) }
    ensures fewer { turns.new ≤ turns.old }
{
    let horizon = state.horizon(join.name.id);
    let burst = match &join.burst {
        None => 1,
        Some(index) => {
            let number = value(alloc, file, &index.value, state, turns)?;
            burst_of(direction, index.mark.line, horizon, number)?
        }
    };
    Ok(claim_of(direction, stream, horizon, burst))
}

/// Adds what the items of one clause claim.
#[cycle(meaning)]
fn add_claims(
    alloc: Global,
    file: &[Item],
    direction: Direction,
    items: &List<ClauseItem>,
    claims: &mut List<Claim>,
    state: &BodyState,
    turns: &mut u64,
) -> Result<(), Stop>
    ensures adds { Adds result claims.old claims.new turns.new (items_claims (file_of (map item_tree file.now))
        (map (clause.Item direction) (map clause_item_tree items.now)) state.now turns.old) }
    ensures fewer { turns.new ≤ turns.old }
{
    for item in items.as_slice() {
        let claim = item_claim(alloc, file, direction, item, state, turns)?;
        claims.push(claim)?;
    }
    Ok(())
}

/// Adds the claims of a clause's items.
#[cycle(meaning)]
fn clause_claims(
    alloc: Global,
    file: &[Item],
    kind: &ClauseKind,
    claims: &mut List<Claim>,
    state: &BodyState,
    turns: &mut u64,
) -> Result<(), Stop>
    ensures adds { Adds result claims.old claims.new turns.new (items_claims (file_of (map item_tree file.now))
        (clause.clause_members (clause_kind_tree kind.now)) state.now turns.old) }
    ensures fewer { turns.new ≤ turns.old }
{
    match kind {
        ClauseKind::Input(items) => {
            add_claims(alloc, file, Direction::Reads, items, claims, state, turns)
        }
        ClauseKind::Output(items) => {
            add_claims(alloc, file, Direction::Writes, items, claims, state, turns)
        }
        ClauseKind::Firstprivate(_) => Ok(()),
    }
}

/// What the items of a task claim.
#[cycle(meaning)]
fn all_claims(
    alloc: Global,
    file: &[Item],
    clauses: &List<Clause>,
    state: &BodyState,
    turns: &mut u64,
) -> Result<List<Claim>, Stop>
    ensures claims { Evaluates result turns.new
        (items_claims (file_of (map item_tree file.now)) (clause.members (map clause_tree clauses.now)) state.now turns.old) }
    ensures fewer { turns.new ≤ turns.old }
{
    let mut claims = List::new(alloc);
    for clause in clauses.as_slice() {
        clause_claims(alloc, file, &clause.kind, &mut claims, state, turns)?;
    }
    Ok(claims)
}

/// Runs a task pragma: its items in order, then the limits, then the activation is there.
#[cycle(meaning)]
pub(crate) fn task(
    alloc: Global,
    around: &Around<'_>,
    site: &TaskSite,
    state: &mut BodyState,
    turns: &mut u64,
) -> Result<(), Stop>
    ensures goes_on { GoesOn result state.new turns.new (runs.run (around_of around.now)
        (tree.Task site.now.mark (map clause_tree site.now.clauses) (stmt_tree site.now.body)) state.old turns.old) }
    ensures fewer { turns.new ≤ turns.old }
{
    let Some(sites) = around.control else {
        return Ok(());
    };
    let Some(number) = sites.number(site.mark.place) else {
        return Ok(());
    };
    let claims = all_claims(alloc, around.file, &site.clauses, state, turns)?;
    state.look_at_limits(claims.as_slice())?;
    let captured = captured_values(alloc, around.file, sites.captured(number), state)?;
    state.create(alloc, site_number(number)?, captured, claims.as_slice())
}

/// Runs a tick: the stream's index, the amount, a turn, and then the cursor moves.
#[cycle(meaning)]
pub(crate) fn tick(
    alloc: Global,
    file: &[Item],
    site: &TickSite,
    state: &mut BodyState,
    turns: &mut u64,
) -> Result<(), Stop>
    ensures goes_on { GoesOn result state.new turns.new (run_tick (file_of (map item_tree file.now)) (target_tree site.now.stream) site.now.arrow
        (expr_tree site.now.amount) state.old turns.old) }
    ensures fewer { turns.new ≤ turns.old }
{
    let stream = stream_number(alloc, file, &site.stream, state, turns)?;
    let number = value(alloc, file, &site.amount, state, turns)?;
    let amount = cursor_move(site.arrow.line, number)?;
    take_turn(turns)?;
    state.tick(stream, amount)
}
