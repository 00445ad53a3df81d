ghost use Rattle.std.specs.Prelude.{◌≤◌, IfOk, length};
ghost use Rattle.flow_core_laws.specs.Limits.{input_limit};
ghost use Rattle.os_ast.specs.Views.{program_tree};
ghost use Rattle.osrun_core_jobs.specs.Files.{MayOpen, files_of};
ghost use Rattle.osrun_core_jobs.specs.Jobs.{IsWithin, Run as RunRequest, job_of};
ghost use Rattle.osrun_core_jobs.specs.Status.{status_code};
ghost use Rattle.osrun_core_run.specs.RunOf.{AreTerms};
ghost use Rattle.osview_answer.specs.AnswersSteps.{MakesSteps};
ghost use Rattle.osview_answer.specs.Source.{IsSource};
ghost use Rattle.osview_answer.specs.Steps.{AreSteps};

use crate::lines::site_lines;
use crate::main_run::run_main;
use crate::source::{Source, read_run};
use crate::telling::RunAnswer;
use epoch_run_bodies::laws::agreeing_bodies_mean_one;
use os_io::{Files, Memory};
use osrun_core_jobs::{Job, Refusal, Terms};
use osrun_core_run::run_code;
use osview_steps::{measure, steps_text};
use std::alloc::Global;
use std::thread::Threads;
use task_workers::Gate;

/// Tells the steps of the run of a program over an input. The tasks are run by workers, once more on one thread for what they read,
/// and once more for their steps; the control program runs a second time for its activations and its steps.
pub(crate) fn tell_steps<R: Threads + Sync, G: Gate>(
    rt: &R,
    alloc: Global,
    terms: Terms,
    source: &Source,
    input: &[u8],
    gate: &G,
) -> Result<RunAnswer, Memory>
    requires within { AreTerms terms }
    requires few { length input.now ≤ input_limit }
    requires source { IsSource source.now }
    ensures { IfOk result (λ told. AreSteps terms.task_budget terms.control_budget (program_tree source.now.checked.program) input.now
        told.text.items (status_code told.status)) }
{
    agreeing_bodies_mean_one();
    let run = run_code(rt, alloc, terms, &source.code, input, gate)?;
    let main = run_main(
        alloc,
        &source.code,
        input.len() as u32,
        terms.control_budget,
    )?;
    let activations = main.activations.as_slice();
    let measured = measure(
        alloc,
        &source.code,
        activations,
        &run.layout,
        input,
        terms.task_budget,
    )?;
    let lines = site_lines(alloc, &source.code)?;
    let text = steps_text(
        alloc,
        &lines,
        measured.runs.as_slice(),
        main.taken,
        measured.longest,
    )?;
    Ok(RunAnswer {
        text: text.into_bytes(),
        status: run.status(),
    })
}

/// Reads the files of a job, and tells the steps of the run. Nothing is written.
pub(crate) fn make_steps<R: Threads + Sync, F: Files, G: Gate>(
    rt: &R,
    alloc: Global,
    job: &Job<'_>,
    files: &mut F,
    gate: &G,
) -> Result<RunAnswer, Refusal>
    requires may { MayOpen (F.may files.old) (F.opens files.old) (files_of (RunRequest (job_of job.now))) }
    requires within { IsWithin (job_of job.now) }
    ensures { MakesSteps F.Files files.old files.new (job_of job.now) result }
{
    let read = read_run(alloc, files, job)?;
    let told = tell_steps(rt, alloc, job.terms, &read.source, &read.input, gate)?;
    Ok(told)
}
