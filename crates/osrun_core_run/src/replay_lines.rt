//! The lines that are told of lists which aren't whole.
ghost use Rattle.std.specs.Prelude.{◌≡◌, IfOk, string_bytes};
ghost use Rattle.osrun_core_run.specs.ReplayLine.{repeat_line, short_line, stranger_line, stuck_line};

use os_io::Memory;
use std::alloc::Global;
use stream_match::Place;

/// The line of a number that no activation has.
pub(crate) fn stranger_line(alloc: Global, list: u32, place: u32) -> Result<String, Memory>
    ensures { IfOk result (λ text. string_bytes text ≡ stranger_line list place) }
{
    Ok(format!(in alloc; "stranger {list} place {place}\n")?)
}

/// The line of an activation that stands twice.
pub(crate) fn repeat_line(alloc: Global, frame: u32) -> Result<String, Memory>
    ensures { IfOk result (λ text. string_bytes text ≡ repeat_line frame) }
{
    Ok(format!(in alloc; "repeat {frame}\n")?)
}

/// The line of an activation that could still run.
pub(crate) fn short_line(alloc: Global, frame: u32) -> Result<String, Memory>
    ensures { IfOk result (λ text. string_bytes text ≡ short_line frame) }
{
    Ok(format!(in alloc; "short {frame}\n")?)
}

/// The line of a list whose head waits for the element at a place.
pub(crate) fn stuck_line(
    alloc: Global,
    list: u32,
    frame: u32,
    place: Place,
) -> Result<String, Memory>
    ensures { IfOk result (λ text. string_bytes text ≡ stuck_line list frame place) }
{
    let Place { stream, position } = place;
    Ok(format!(in alloc; "stuck {list} frame {frame} stream {stream} position {position}\n")?)
}
