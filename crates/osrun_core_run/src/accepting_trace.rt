ghost use Rattle.std.specs.Prelude.{◌≡◌, ◌≤◌, ◌<◌, ◌^◌, ◌⊎◌, ℕ, List, All, IfOk, IfErr, OnOk, length};
ghost use Rattle.osrun_core_jobs.specs.Limits.{trace_limit};
ghost use Rattle.osrun_core_jobs.specs.declared.refusal.Refusal.{Refusal as Cause};
ghost use Rattle.osrun_core_jobs.specs.declared.subject.Subject.TheVariants.{Trace as TraceFile};
ghost use Rattle.osrun_core_run.specs.Refusal.{IsRefusalAs};
ghost use Rattle.trace_replay_text.specs.Trace.{IsTraceOf};

use crate::refused::trace_refusal;
use os_io::List;
use osrun_core_jobs::Refusal;
use std::alloc::Global;
use trace_replay::read_trace;
use trace_replay_text::laws::traces_are_told;

/// The lists of a trace: the activations that each worker ran, in its order, for 1 to 64 workers.
pub fn accept_trace(alloc: Global, bytes: &[u8]) -> Result<List<List<u32>>, Refusal>
    ensures lists { IfOk result (IsTraceOf bytes.now) }
    ensures short { length bytes.now ≤ trace_limit → IfOk result (λ lists. All (λ list. length list < 2 ^ 32) lists) }
    ensures refused { IfErr result (λ refusal. (refusal ≡ Refusal.Memory) ⊎ IsRefusalAs TraceFile bytes.now refusal) }
    ensures accepted { (lists : List (List ℕ)) → IsTraceOf bytes.now lists → IfErr result (λ refusal. refusal ≡ Refusal.Memory) }
    ensures rejected { (cause : Cause) → IsRefusalAs TraceFile bytes.now cause → OnOk result ⊥ }
{
    traces_are_told();
    match read_trace(alloc, bytes) {
        Ok(lists) => Ok(lists),
        Err(error) => Err(trace_refusal(error)),
    }
}
