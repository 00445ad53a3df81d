ghost use Rattle.std.specs.Prelude.{◌≤◌, IfOk, length};
ghost use Rattle.flow_core_laws.specs.Limits.{input_limit};
ghost use Rattle.os_ast.specs.Views.{program_tree};
ghost use Rattle.osrun_core_answer.specs.Made.{MakesTrace, TracesEnded};
ghost use Rattle.osrun_core_jobs.specs.Files.{MayOpen, files_of};
ghost use Rattle.osrun_core_jobs.specs.Jobs.{IsWithin, Trace as TraceRequest, job_of};
ghost use Rattle.osrun_core_run.specs.RunOf.{AreTerms, IsRunOf};

use crate::make_run::read_program;
use os_io::{Files, Memory};
use osrun_core_jobs::{Job, Refusal, Subject, Terms, load};
use osrun_core_run::{MadeRun, trace_program};
use std::alloc::Global;
use std::thread::Threads;
use task_workers::Gate;
use trace_replay::print_trace;
use window_check::Checked;

/// A run over one table, and its trace.
#[derive(Debug, Drop)]
pub struct TracedRun {
    /// The lines of the workers: which activations each of them ran, in its order.
    pub text: Vec<u8>,
    /// What the report tells.
    pub run: MadeRun,
}

/// Runs a program over an input, and prints which activations each worker ran.
fn trace_run<R: Threads + Sync, G: Gate>(
    rt: &R,
    alloc: Global,
    terms: Terms,
    checked: &Checked,
    input: &[u8],
    gate: &G,
) -> Result<TracedRun, Memory>
    requires within { AreTerms terms }
    requires few { length input.now ≤ input_limit }
    ensures run { IfOk result (λ traced. IsRunOf terms.task_budget terms.control_budget (program_tree checked.now.program) input.now
        traced.run.output.items traced.run.layout traced.run.ends traced.run.control) }
    ensures traces { IfOk result (λ traced. TracesEnded terms.workers traced.run.ends.ends traced.text.items) }
{
    let traced = trace_program(rt, alloc, terms, checked, input, gate)?;
    let text = print_trace(alloc, traced.lists.as_slice())?;
    Ok(TracedRun {
        text,
        run: traced.run,
    })
}

/// Makes the run of a program with its trace, from its files on: the program is read and checked, the input is read, and the program
/// is run over it. Nothing is written.
pub fn make_trace<R: Threads + Sync, F: Files, G: Gate>(
    rt: &R,
    alloc: Global,
    job: &Job<'_>,
    files: &mut F,
    gate: &G,
) -> Result<TracedRun, Refusal>
    requires may { MayOpen (F.may files.old) (F.opens files.old) (files_of (TraceRequest (job_of job.now))) }
    requires within { IsWithin (job_of job.now) }
    ensures { MakesTrace F.Files files.old files.new (job_of job.now) result }
{
    let checked = read_program(alloc, files, job.program)?;
    let input = load(alloc, files, job.input, Subject::Input)?;
    let traced = trace_run(rt, alloc, job.terms, &checked, &input, gate)?;
    Ok(traced)
}
