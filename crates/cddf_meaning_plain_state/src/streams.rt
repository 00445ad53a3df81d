//! What clause items, tasks and ticks say of streams.

ghost use Rattle.std.specs.Prelude.{◌≡◌, Ok, map};
ghost use Rattle.cddf_meaning.specs.Functions.{file_of};
ghost use Rattle.cddf_meaning.specs.Streams.{burst_of, captured_values, claim_of, cursor_move};
ghost use Rattle.os_ast.specs.Views.{item_tree};
ghost use Rattle.cddf_meaning_plain_state.specs.Stops.{Comes};

use crate::body_state::BodyState;
use crate::names::scalar;
use crate::stop::Stop;
use c_int::Trap;
use flow_core_laws::{Claim, MOVE_LIMIT};
use os_ast::{Direction, Item};
use os_io::List;
use std::alloc::Global;

/// By how much a cursor moves, 0 to 65,536 positions, with the line that a trap has.
pub fn cursor_move(line: u32, number: i32) -> Result<u32, Stop>
    ensures { Comes result (cursor_move line number) }
{
    match u32::try_from(number) {
        Ok(amount) if amount <= MOVE_LIMIT => Ok(amount),
        _ => Err(Stop::trap(Trap::Move, line)),
    }
}

/// The burst of an item with a window of this horizon, with the line that a trap has.
pub fn burst_of(direction: Direction, line: u32, horizon: u32, number: i32) -> Result<u32, Stop>
    ensures { Comes result (burst_of direction line horizon number) }
{
    match direction {
        Direction::Reads => cursor_move(line, number),
        Direction::Writes if i64::from(number) == i64::from(horizon) => Ok(horizon),
        Direction::Writes => Err(Stop::trap(Trap::OutputBurst, line)),
    }
}

/// What an item claims, before ticks are counted.
pub fn claim_of(direction: Direction, stream: u32, horizon: u32, burst: u32) -> Claim
    ensures { result ≡ claim_of direction stream horizon burst }
{
    match direction {
        Direction::Reads => Claim {
            stream,
            write: false,
            horizon,
            burst,
            skip: 0,
        },
        Direction::Writes => Claim {
            stream,
            write: true,
            horizon,
            burst: horizon,
            skip: 0,
        },
    }
}

/// The number of a task as an activation has it; `Memory` where it has more than 32 bits.
pub fn site_number(number: usize) -> Result<u32, Stop>
    ensures { Comes result (Ok number) }
{
    match u32::try_from(number) {
        Ok(number) => Ok(number),
        Err(_) => Err(Stop::Memory),
    }
}

/// The values of captured scalars, by the numbers of their names.
pub fn captured_values(
    alloc: Global,
    file: &[Item],
    ids: &[u32],
    state: &BodyState,
) -> Result<List<i32>, Stop>
    ensures { Comes result (Ok (captured_values (file_of (map item_tree file.now)) state.now ids.now)) }
{
    let mut values = List::new(alloc);
    for id in ids {
        let number = scalar(file, state, *id)?;
        values.push(number)?;
    }
    Ok(values)
}
