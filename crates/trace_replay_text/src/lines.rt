//! The line of a worker at the front of a text.

ghost use Rattle.std.specs.Prelude.{◌≡◌, ◌++◌, ◌∷◌, ◌<◌, suc, IfOk, IfErr, IfSome, IfNone, List, ℕ, codes};
ghost use Rattle.std.specs.List.{flat_map};
ghost use Rattle.flow_core_laws.specs.Limits.{workers_limit};
ghost use Rattle.trace_replay_text.specs.Fields.{Begins, IsWrongAt};
ghost use Rattle.os_io.specs.Lines.{field};
ghost use Rattle.trace_replay_text.specs.Trace.{AreNumbers, NoLine, worker_line};

use crate::fields::{fields, first_field, place_of};
use crate::trace_error::TraceError;
use os_io::{List, Memory};
use std::alloc::Global;

/// What stands in a line behind `worker` and the worker's number.
fn behind_worker(line: &[u8], worker: u32) -> Option<&[u8]>
    ensures some { IfSome result (λ numbers. line.now ≡ codes "worker" ++ field worker ++ numbers.now) }
    ensures begins { IfSome result (λ numbers. Begins 32 numbers.now) }
    ensures none { IfNone result ((frames : List ℕ) → AreNumbers frames → line.now ≡ codes "worker" ++ flat_map field (worker ∷ frames) → ⊥) }
{
    let [b'w', b'o', b'r', b'k', b'e', b'r', fields @ ..] = line else {
        return None;
    };
    let Some((number, numbers)) = first_field(fields) else {
        return None;
    };
    if number != worker {
        return None;
    }
    Some(numbers)
}

/// The frames of the worker whose line stands at the front of a text, and what stands behind it.
pub(crate) fn read_line(
    alloc: Global,
    text: &[u8],
    worker: u32,
) -> Result<(List<u32>, &[u8]), TraceError>
    requires { worker < workers_limit }
    ensures ok { IfOk result (λ read. AreNumbers read.0 × (text.now ≡ worker_line worker read.0 ++ read.1.now)) }
    ensures err { IfErr result (λ error. IsWrongAt error (suc worker) (NoLine worker text.now)) }
{
    let end = place_of(b'\n', text);
    let wrong = TraceError::Line(worker + 1);
    let (line, [_, after @ ..]) = text.split_at(end) else {
        return Err(wrong);
    };
    let Some(numbers) = behind_worker(line, worker) else {
        return Err(wrong);
    };
    let Some(frames) = fields(alloc, numbers)? else {
        return Err(wrong);
    };
    Ok((frames, after))
}
