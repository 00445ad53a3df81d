ghost use Rattle.std.specs.Prelude.{IfOk, IfErr};
ghost use Rattle.trace_replay_text.specs.Fields.{IsTraceRefused};
ghost use Rattle.trace_replay_text.specs.Trace.{IsTraceOf};

use crate::lines::read_line;
use crate::trace_error::TraceError;
use flow_core_laws::WORKERS_LIMIT;
use os_io::List;
use std::alloc::Global;

/// The lists of frames of the workers of a trace, or the first line that isn't one of a trace.
pub fn read_trace(alloc: Global, text: &[u8]) -> Result<List<List<u32>>, TraceError>
    ensures ok { IfOk result (IsTraceOf text.now) }
    ensures err { IfErr result (IsTraceRefused text.now) }
{
    let mut lists = List::new(alloc);
    let mut rest = text;
    for worker in 0..WORKERS_LIMIT {
        if rest.is_empty() && worker > 0 {
            return Ok(lists);
        }
        let (frames, after) = read_line(alloc, rest, worker)?;
        lists.push(frames)?;
        rest = after;
    }
    if !rest.is_empty() {
        return Err(TraceError::Line(WORKERS_LIMIT + 1));
    }
    Ok(lists)
}
