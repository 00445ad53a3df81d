ghost use Rattle.std.specs.Prelude.{◌≤◌, length, IfOk};
ghost use Rattle.flow_core_laws.specs.Limits.{input_limit};
ghost use Rattle.os_ast.specs.Views.{program_tree};
ghost use Rattle.osrun_core_run.specs.RunOf.{AreTerms, IsRunOf};

use crate::code_run::{run_code, run_code_over};
use crate::compiling::compile;
use crate::made::MadeRun;
use epoch_run_bodies::laws::agreeing_bodies_mean_one;
use os_io::Memory;
use osrun_core_jobs::Terms;
use std::alloc::Global;
use std::thread::Threads;
use task_workers::Gate;
use window_check::Checked;

/// Runs a program over an input: it is compiled, and its code is run.
pub fn run_program<R: Threads + Sync, G: Gate>(
    rt: &R,
    alloc: Global,
    terms: Terms,
    checked: &Checked,
    input: &[u8],
    gate: &G,
) -> Result<MadeRun, Memory>
    requires within { AreTerms terms }
    requires few { length input.now ≤ input_limit }
    ensures run { IfOk result (λ run. IsRunOf terms.task_budget terms.control_budget
        (program_tree checked.now.program) input.now run.output.items run.layout run.ends run.control) }
{
    agreeing_bodies_mean_one();
    let code = compile(alloc, checked)?;
    let run = run_code(rt, alloc, terms, &code, input, gate)?;
    Ok(run)
}

/// Runs a program over an input as `run_program` does, and gives the input up before the bytes of the output are collected.
pub fn run_program_over<R: Threads + Sync, G: Gate>(
    rt: &R,
    alloc: Global,
    terms: Terms,
    checked: &Checked,
    input: Vec<u8>,
    gate: &G,
) -> Result<MadeRun, Memory>
    requires within { AreTerms terms }
    requires few { length input.items ≤ input_limit }
    ensures run { IfOk result (λ run. IsRunOf terms.task_budget terms.control_budget
        (program_tree checked.now.program) input.items run.output.items run.layout run.ends run.control) }
{
    agreeing_bodies_mean_one();
    let code = compile(alloc, checked)?;
    let run = run_code_over(rt, alloc, terms, &code, input, gate)?;
    Ok(run)
}
