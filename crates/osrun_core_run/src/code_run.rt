ghost use Rattle.std.specs.Prelude.{◌≤◌, length, IfOk};
ghost use Rattle.flow_core_laws.specs.Limits.{input_limit};
ghost use Rattle.os_code.specs.Codes.{parts_of};
ghost use Rattle.osrun_core_run.specs.RunOf.{AreTerms, IsRunOfCode};

use crate::in_epochs::run_in_epochs;
use crate::made::MadeRun;
use epoch_run::RunResult;
use os_code::Code;
use os_io::Memory;
use osrun_core_jobs::Terms;
use std::alloc::Global;
use std::thread::Threads;
use task_workers::Gate;

/// Runs a code over an input: its `main` creates the activations, and workers run them, epoch by epoch; then the output's bytes are
/// collected.
pub fn run_code<R: Threads + Sync, G: Gate>(
    rt: &R,
    alloc: Global,
    terms: Terms,
    code: &Code,
    input: &[u8],
    gate: &G,
) -> Result<MadeRun, Memory>
    requires within { AreTerms terms }
    requires few { length input.now ≤ input_limit }
    ensures run { IfOk result (λ run. IsRunOfCode terms.task_budget terms.control_budget
        (parts_of code.now) input.now run.output.items run.layout run.ends run.control) }
{
    let RunResult {
        layout,
        ends,
        control,
    } = run_in_epochs(rt, alloc, terms, code, input, gate)?;
    let run = MadeRun::of(alloc, layout, ends, control)?;
    Ok(run)
}

/// Runs a code over an input as `run_code` does, and gives the input up once all activations have ended: the bytes of the output are
/// collected in the memory that it had.
pub fn run_code_over<R: Threads + Sync, G: Gate>(
    rt: &R,
    alloc: Global,
    terms: Terms,
    code: &Code,
    input: Vec<u8>,
    gate: &G,
) -> Result<MadeRun, Memory>
    requires within { AreTerms terms }
    requires few { length input.items ≤ input_limit }
    ensures run { IfOk result (λ run. IsRunOfCode terms.task_budget terms.control_budget
        (parts_of code.now) input.items run.output.items run.layout run.ends run.control) }
{
    let RunResult {
        layout,
        ends,
        control,
    } = run_in_epochs(rt, alloc, terms, code, &input, gate)?;
    drop(input);
    let run = MadeRun::of(alloc, layout, ends, control)?;
    Ok(run)
}
