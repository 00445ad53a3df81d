ghost use Rattle.std.specs.Prelude.{◌≤◌, IfOk, length};
ghost use Rattle.flow_core_laws.specs.Limits.{input_limit};
ghost use Rattle.osrun_core_jobs.specs.Files.{MayOpen, files_of};
ghost use Rattle.osrun_core_jobs.specs.Jobs.{IsWithin, Run as RunRequest, job_of};
ghost use Rattle.osrun_core_jobs.specs.Status.{status_code};
ghost use Rattle.osrun_core_run.specs.RunOf.{AreTerms};
ghost use Rattle.osview_answer.specs.AnswersExplain.{MakesExplanation};
ghost use Rattle.osview_answer.specs.Explanation.{IsExplanationOf};
ghost use Rattle.osview_answer.specs.Source.{IsSource};

use crate::explain_job::ExplainJob;
use crate::explanation::explain;
use crate::lines::task_lines;
use crate::names::{stream_names, tokens_of};
use crate::source::{Source, read_run};
use crate::telling::RunAnswer;
use control_run::run_control;
use epoch_run_bodies::laws::agreeing_bodies_mean_one;
use os_io::{Files, Memory};
use osrun_core_jobs::Refusal;
use osrun_core_run::run_code;
use osview_sentences::ToldRun;
use std::alloc::Global;
use std::thread::Threads;
use task_workers::Gate;

/// Runs a program over an input, and explains an activation. The control program runs a second time, for its activations.
fn tell_explanation<R: Threads + Sync, G: Gate>(
    rt: &R,
    alloc: Global,
    asked: &ExplainJob<'_>,
    source: &Source,
    input: &[u8],
    gate: &G,
) -> Result<RunAnswer, Memory>
    requires within { AreTerms asked.now.job.terms }
    requires few { length input.now ≤ input_limit }
    requires source { IsSource source.now }
    ensures { IfOk result (λ told. IsExplanationOf asked.now.job.terms.task_budget asked.now.job.terms.control_budget source.now.text.items
        input.now asked.now.activation told.text.items (status_code told.status)) }
{
    agreeing_bodies_mean_one();
    let terms = asked.job.terms;
    let tokens = tokens_of(alloc, &source.text)?;
    let names = stream_names(alloc, &tokens, source.checked.names.as_slice())?;
    let run = run_code(rt, alloc, terms, &source.code, input, gate)?;
    let control = run_control(
        alloc,
        &source.code,
        input.len() as u32,
        terms.control_budget,
    )?;
    let lines = task_lines(alloc, &source.code, control.activations.as_slice())?;
    let told = ToldRun {
        text: &source.text,
        names: &names,
        lines: &lines,
        activations: control.activations.as_slice(),
        layout: &run.layout,
        ends: &run.ends,
    };
    let explained = explain(alloc, &told, asked.activation)?;
    Ok(explained)
}

/// Reads the files of a job, runs its program over its input, and explains an activation. Nothing is written.
pub(crate) fn make_explanation<R: Threads + Sync, F: Files, G: Gate>(
    rt: &R,
    alloc: Global,
    asked: &ExplainJob<'_>,
    files: &mut F,
    gate: &G,
) -> Result<RunAnswer, Refusal>
    requires may { MayOpen (F.may files.old) (F.opens files.old) (files_of (RunRequest (job_of asked.now.job))) }
    requires within { IsWithin (job_of asked.now.job) }
    ensures { MakesExplanation F.Files files.old files.new (job_of asked.now.job) asked.now.activation result }
{
    let read = read_run(alloc, files, &asked.job)?;
    let told = tell_explanation(rt, alloc, asked, &read.source, &read.input, gate)?;
    Ok(told)
}
