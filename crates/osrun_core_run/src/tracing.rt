ghost use Rattle.std.specs.Prelude.{◌≡◌, ◌≤◌, length, IfOk};
ghost use Rattle.flow_core_laws.specs.Limits.{input_limit};
ghost use Rattle.os_ast.specs.Views.{program_tree};
ghost use Rattle.osrun_core_run.specs.RunOf.{AreTerms, IsRunOf};
ghost use Rattle.task_workers.specs.Logged.{HoldTheEnded};

use crate::code_trace::{Traced, trace_code};
use crate::compiling::compile;
use epoch_run_bodies::laws::agreeing_bodies_mean_one;
use os_io::Memory;
use osrun_core_jobs::Terms;
use std::alloc::Global;
use std::thread::Threads;
use task_workers::Gate;
use window_check::Checked;

/// Runs a program over an input whole, over one table, and tells which activations each worker ran. Which worker runs what may
/// differ from call to call.
pub fn trace_program<R: Threads + Sync, G: Gate>(
    rt: &R,
    alloc: Global,
    terms: Terms,
    checked: &Checked,
    input: &[u8],
    gate: &G,
) -> Result<Traced, Memory>
    requires within { AreTerms terms }
    requires few { length input.now ≤ input_limit }
    ensures run { IfOk result (λ traced. IsRunOf terms.task_budget terms.control_budget (program_tree checked.now.program) input.now
        traced.run.output.items traced.run.layout traced.run.ends traced.run.control) }
    // A list for each worker, and in them each activation with an end once.
    ensures one_each { IfOk result (λ traced. length traced.lists ≡ terms.workers) }
    ensures lists { IfOk result (λ traced. HoldTheEnded traced.run.ends.ends traced.lists) }
{
    agreeing_bodies_mean_one();
    let code = compile(alloc, checked)?;
    let traced = trace_code(rt, alloc, terms, &code, input, gate)?;
    Ok(traced)
}
