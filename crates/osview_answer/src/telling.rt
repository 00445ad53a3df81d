ghost use Rattle.std.specs.Prelude.{◌≤◌, IfOk, length};
ghost use Rattle.flow_core_laws.specs.Limits.{input_limit};
ghost use Rattle.osrun_core_jobs.specs.Files.{MayOpen, files_of};
ghost use Rattle.osrun_core_jobs.specs.Jobs.{IsWithin, Run as RunRequest, job_of};
ghost use Rattle.osrun_core_jobs.specs.Status.{status_code};
ghost use Rattle.osrun_core_run.specs.RunOf.{AreTerms};
ghost use Rattle.osview_answer.specs.Source.{IsSource, Makes};
ghost use Rattle.osview_answer.specs.Told.{IsReportOf};

use crate::lines::task_lines;
use crate::names::{stream_names, tokens_of};
use crate::source::{Source, read_run};
use control_run::run_control;
use epoch_run_bodies::laws::agreeing_bodies_mean_one;
use os_io::{Files, Memory};
use osrun_core_jobs::{Job, Refusal, Status, Terms};
use osrun_core_run::run_code;
use osview_sentences::{ToldRun, report_text};
use std::alloc::Global;
use std::thread::Threads;
use task_workers::Gate;

/// What is told of a run, and the status of the run.
#[derive(Drop)]
pub(crate) struct RunAnswer {
    pub(crate) text: Vec<u8>,
    pub(crate) status: Status,
}

/// Runs a program over an input, and tells what the run came to. The control program runs a second time, for its
/// activations.
pub(crate) fn tell_run<R: Threads + Sync, G: Gate>(
    rt: &R,
    alloc: Global,
    terms: Terms,
    source: &Source,
    input: &[u8],
    gate: &G,
) -> Result<RunAnswer, Memory>
    requires within { AreTerms terms }
    requires few { length input.now ≤ input_limit }
    requires source { IsSource source.now }
    ensures { IfOk result (λ told. IsReportOf terms.task_budget terms.control_budget source.now.text.items input.now
        told.text.items (status_code told.status)) }
{
    agreeing_bodies_mean_one();
    let tokens = tokens_of(alloc, &source.text)?;
    let names = stream_names(alloc, &tokens, source.checked.names.as_slice())?;
    let run = run_code(rt, alloc, terms, &source.code, input, gate)?;
    let control = run_control(
        alloc,
        &source.code,
        input.len() as u32,
        terms.control_budget,
    )?;
    let lines = task_lines(alloc, &source.code, control.activations.as_slice())?;
    let told = ToldRun {
        text: &source.text,
        names: &names,
        lines: &lines,
        activations: control.activations.as_slice(),
        layout: &run.layout,
        ends: &run.ends,
    };
    let text = report_text(alloc, &told, run.control)?;
    Ok(RunAnswer {
        text,
        status: run.status(),
    })
}

/// Reads the files of a job, runs its program over its input, and tells what the run came to. Nothing is written.
pub(crate) fn make_report<R: Threads + Sync, F: Files, G: Gate>(
    rt: &R,
    alloc: Global,
    job: &Job<'_>,
    files: &mut F,
    gate: &G,
) -> Result<RunAnswer, Refusal>
    requires may { MayOpen (F.may files.old) (F.opens files.old) (files_of (RunRequest (job_of job.now))) }
    requires within { IsWithin (job_of job.now) }
    ensures { Makes F.Files files.old files.new (job_of job.now) result }
{
    let read = read_run(alloc, files, job)?;
    let told = tell_run(rt, alloc, job.terms, &read.source, &read.input, gate)?;
    Ok(told)
}
