ghost use Rattle.std.specs.Prelude.{◌≡◌, ◌++◌, IfOk};
ghost use Rattle.os_io.specs.Lines.{field};
ghost use Rattle.trace_replay_text.specs.Trace.{trace, worker_line};

use itoa::Buffer;
use os_io::{List, Memory};
use std::alloc::Global;

/// The trace of the lists of frames of workers, who are counted from 0 on. A list of `lists` has the frames of a worker in the order
/// in which it ran them.
pub fn print_trace(alloc: Global, lists: &[List<u32>]) -> Result<Vec<u8>, Memory>
    ensures { IfOk result (λ text. text.items ≡ trace lists.now) }
{
    let mut text = Vec::new(alloc);
    for (worker, frames) in lists.iter().enumerate() {
        print_line(&mut text, worker as u64, frames.as_slice())?;
    }
    Ok(text)
}

/// Adds the line of a worker.
fn print_line(text: &mut Vec<u8>, worker: u64, frames: &[u32]) -> Result<(), Memory>
    ensures { IfOk result (λ _. text.new.items ≡ text.old.items ++ worker_line worker frames.now) }
{
    text.extend_from_slice(b"worker")?;
    print_field(text, worker)?;
    for frame in frames {
        print_field(text, *frame as u64)?;
    }
    text.push(b'\n')?;
    Ok(())
}

/// Adds a number behind a space.
fn print_field(text: &mut Vec<u8>, number: u64) -> Result<(), Memory>
    ensures { IfOk result (λ _. text.new.items ≡ text.old.items ++ field number) }
{
    text.push(b' ')?;
    text.extend_from_slice(Buffer::new().format(number).as_bytes())?;
    Ok(())
}
