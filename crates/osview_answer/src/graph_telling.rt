ghost use Rattle.std.specs.Prelude.{◌≤◌, IfOk, length};
ghost use Rattle.flow_core_laws.specs.Limits.{input_limit};
ghost use Rattle.osrun_core_jobs.specs.Files.{MayOpen, files_of};
ghost use Rattle.osrun_core_jobs.specs.Jobs.{IsWithin, Run as RunRequest, job_of};
ghost use Rattle.osrun_core_jobs.specs.Status.{status_code};
ghost use Rattle.osrun_core_run.specs.RunOf.{AreTerms};
ghost use Rattle.osview_answer.specs.Drawn.{IsGraphOf};
ghost use Rattle.osview_answer.specs.Graphs.{MakesGraph};
ghost use Rattle.osview_answer.specs.Source.{IsSource};

use crate::graph_job::GraphJob;
use crate::lines::site_lines;
use crate::names::{stream_names, tokens_of};
use crate::source::{Source, read_run};
use crate::telling::RunAnswer;
use control_run::run_control;
use epoch_run_bodies::laws::agreeing_bodies_mean_one;
use os_io::{Files, Memory};
use osrun_core_jobs::Refusal;
use osrun_core_run::run_code;
use osview_graph::{Drawn, graph_text};
use std::alloc::Global;
use std::thread::Threads;
use task_workers::Gate;

/// Runs a program over an input, and draws the graph that is asked for. The control program runs a second time, for its activations.
fn tell_graph<R: Threads + Sync, G: Gate>(
    rt: &R,
    alloc: Global,
    asked: &GraphJob<'_>,
    source: &Source,
    input: &[u8],
    gate: &G,
) -> Result<RunAnswer, Memory>
    requires within { AreTerms asked.now.job.terms }
    requires few { length input.now ≤ input_limit }
    requires source { IsSource source.now }
    ensures { IfOk result (λ told. IsGraphOf asked.now.job.terms.task_budget asked.now.job.terms.control_budget source.now.text.items input.now
        asked.now.view told.text.items (status_code told.status)) }
{
    agreeing_bodies_mean_one();
    let terms = asked.job.terms;
    let tokens = tokens_of(alloc, &source.text)?;
    let names = stream_names(alloc, &tokens, source.checked.names.as_slice())?;
    let run = run_code(rt, alloc, terms, &source.code, input, gate)?;
    let control = run_control(
        alloc,
        &source.code,
        input.len() as u32,
        terms.control_budget,
    )?;
    let lines = site_lines(alloc, &source.code)?;
    let drawn = Drawn {
        text: &source.text,
        names: &names,
        lines: &lines,
        streams: source.code.streams,
        activations: control.activations.as_slice(),
        layout: &run.layout,
        ends: run.ends.ends.as_slice(),
    };
    let text = graph_text(alloc, &drawn, asked.view)?;
    Ok(RunAnswer {
        text: text.into_bytes(),
        status: run.status(),
    })
}

/// Reads the files of a job, runs its program over its input, and draws the graph that is asked for. Nothing is written.
pub(crate) fn make_graph<R: Threads + Sync, F: Files, G: Gate>(
    rt: &R,
    alloc: Global,
    asked: &GraphJob<'_>,
    files: &mut F,
    gate: &G,
) -> Result<RunAnswer, Refusal>
    requires may { MayOpen (F.may files.old) (F.opens files.old) (files_of (RunRequest (job_of asked.now.job))) }
    requires within { IsWithin (job_of asked.now.job) }
    ensures { MakesGraph F.Files files.old files.new (job_of asked.now.job) asked.now.view result }
{
    let read = read_run(alloc, files, &asked.job)?;
    let told = tell_graph(rt, alloc, asked, &read.source, &read.input, gate)?;
    Ok(told)
}
