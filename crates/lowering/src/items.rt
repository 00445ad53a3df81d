//! The items of a task's clauses, and ticks.

ghost use Rattle.std.specs.Prelude.{◌≡◌, OnOk, map, option_map};
ghost use Rattle.lowering_draft.specs.Emission.Tasks.{burst_code, item_code, items_code, join_code, stream_code, tick_code};
ghost use Rattle.os_ast.specs.ClauseMembers.{members};
ghost use Rattle.os_ast.specs.Views.{clause_item_tree, clause_tree, expr_tree, index_tree, join_tree, target_tree};
ghost use Rattle.lowering_relation.specs.Names.{told_at};

use lowering_draft::{Draft, ItemVisitor, Told, bursting, count_of, first_of, visit_items};
use lowering_expressions::emit_expr;
use os_ast::{Clause, ClauseItem, Direction, Index, Join, Target, TickSite};
use os_code::Instr;
use os_io::{List, Memory};

/// The items of a task, in the order of its clauses.
#[tactic(auto, using(lowering_draft::proofs::Items::items_code_visited))]
pub(crate) fn emit_items(
    draft: &mut Draft,
    told: &Told<'_>,
    clauses: &List<Clause>,
) -> Result<(), Memory>
    ensures { OnOk result (draft.new ≡ items_code (told_at told.now.names.now) (members (map clause_tree clauses.now)) draft.old) }
{
    visit_items(&ItemCode, draft, told, clauses)
}

/// The visitor that emits the code of each item.
struct ItemCode;

impl ItemVisitor for ItemCode {
    ghost use Rattle.lowering_draft.specs.Emission.Tasks.{item_code};

    type Made = Draft;

    ghost with_item = { item_code };

    fn visit(
        &self,
        draft: &mut Draft,
        told: &Told<'_>,
        direction: Direction,
        item: &ClauseItem,
    ) -> Result<(), Memory> {
        emit_item(draft, told, direction, item)
    }
}

/// An item: the stream's index, then the burst.
fn emit_item(
    draft: &mut Draft,
    told: &Told<'_>,
    direction: Direction,
    item: &ClauseItem,
) -> Result<(), Memory>
    ensures { OnOk result (draft.new ≡ item_code (told_at told.now.names.now) direction (clause_item_tree item.now) draft.old) }
{
    emit_stream(draft, told, &item.stream)?;
    match &item.window {
        None => draft.emit(Instr::Push(1)),
        Some(join) => emit_burst(draft, told, direction, join),
    }
}

/// The stream of an item or of a tick: its index, counted from its first number.
fn emit_stream(draft: &mut Draft, told: &Told<'_>, stream: &Target) -> Result<(), Memory>
    ensures { OnOk result (draft.new ≡ stream_code (told_at told.now.names.now) (target_tree stream.now) draft.old) }
{
    match &stream.index {
        None => draft.emit(Instr::Push(0)),
        Some(index) => {
            emit_expr(draft, told, &index.value)?;
            draft.emit(Instr::CheckAt {
                size: count_of(told.at(stream.name.mark.place).what),
                line: index.mark.line,
            })
        }
    }
}

/// The burst of an item, 1 where none is written.
fn emit_burst(
    draft: &mut Draft,
    told: &Told<'_>,
    direction: Direction,
    join: &Join,
) -> Result<(), Memory>
    ensures { OnOk result (draft.new
        ≡ burst_code (told_at told.now.names.now) direction (told_at told.now.names.now join.now.name.mark.place).what
        (option_map index_tree join.now.burst) draft.old) }
{
    match &join.burst {
        None => draft.emit(Instr::Push(1)),
        Some(index) => {
            emit_expr(draft, told, &index.value)?;
            let window = told.at(join.name.mark.place).what;
            draft.emit(bursting(direction, window, index.mark.line))
        }
    }
}

/// A tick: the stream's index, the amount, its check, the turn that it takes, the move.
pub(crate) fn emit_tick(draft: &mut Draft, told: &Told<'_>, tick: &TickSite) -> Result<(), Memory>
    ensures { OnOk result (draft.new
        ≡ tick_code (told_at told.now.names.now) (target_tree tick.now.stream) tick.now.arrow.line (expr_tree tick.now.amount) draft.old) }
{
    emit_stream(draft, told, &tick.stream)?;
    emit_expr(draft, told, &tick.amount)?;
    draft.emit(Instr::BurstIn {
        line: tick.arrow.line,
    })?;
    draft.emit(Instr::Turn)?;
    let stream = told.at(tick.stream.name.mark.place).what;
    draft.emit(Instr::Tick(first_of(stream)))
}
