ghost use Rattle.std.specs.Prelude.{◌≡◌, ◌<◌, ◌≤◌, IfOk, length};
ghost use Rattle.flow_core_laws.specs.Limits.{input_limit};
ghost use Rattle.os_ast.specs.Views.{program_tree};
ghost use Rattle.osrun_core_jobs.specs.Files.{MayOpen, files_of};
ghost use Rattle.osrun_core_jobs.specs.Jobs.{IsWithin, Run as RunRequest, job_of};
ghost use Rattle.osrun_core_jobs.specs.Status.{status_code};
ghost use Rattle.osrun_core_run.specs.RunOf.{AreTerms};
ghost use Rattle.osview_answer.specs.AnswersStream.{unnamed_line};
ghost use Rattle.osview_answer.specs.Elements.{AreElements};
ghost use Rattle.osview_answer.specs.Source.{IsSource};
ghost use Rattle.osview_answer.specs.Streams.{IsTold, MakesStream, asked_of};

use crate::lines::task_lines;
use crate::names::{stream_names, tokens_of};
use crate::outcomes::task_outcomes;
use crate::source::{Source, read_run};
use crate::stream_job::StreamJob;
use crate::telling::RunAnswer;
use control_run::run_control;
use epoch_run_bodies::laws::agreeing_bodies_mean_one;
use os_io::{Files, Memory};
use osrun_core_jobs::Refusal;
use osrun_core_run::run_code;
use osview_stream::{Shown, called_stream, elements_text};
use osview_text::Text;
use std::alloc::Global;
use std::thread::Threads;
use task_workers::Gate;

/// What is told of a stream.
#[derive(Drop)]
pub(crate) enum StreamTold {
    /// The lines of its elements, and the status of the run.
    Elements(RunAnswer),
    /// The line that tells that there is none with this name.
    Unnamed(Vec<u8>),
}

/// Tells the elements of a stream. The tasks are run by workers, and once more on one thread for what they write; the control
/// program runs a second time for its activations.
fn tell_elements<R: Threads + Sync, G: Gate>(
    rt: &R,
    alloc: Global,
    asked: &StreamJob<'_>,
    source: &Source,
    input: &[u8],
    stream: u32,
    gate: &G,
) -> Result<RunAnswer, Memory>
    requires within { AreTerms asked.now.job.terms }
    requires few { length input.now ≤ input_limit }
    requires source { IsSource source.now }
    ensures { IfOk result (λ told. AreElements asked.now.job.terms.task_budget asked.now.job.terms.control_budget
        (program_tree source.now.checked.program) input.now stream asked.now.first asked.now.count told.text.items (status_code told.status)) }
{
    agreeing_bodies_mean_one();
    let terms = asked.job.terms;
    let run = run_code(rt, alloc, terms, &source.code, input, gate)?;
    let control = run_control(
        alloc,
        &source.code,
        input.len() as u32,
        terms.control_budget,
    )?;
    let activations = control.activations.as_slice();
    let lines = task_lines(alloc, &source.code, activations)?;
    let outcomes = task_outcomes(
        alloc,
        &source.code,
        activations,
        &run.layout,
        input,
        terms.task_budget,
    )?;
    let shown = Shown {
        layout: &run.layout,
        outcomes: &outcomes,
        input,
        lines: &lines,
    };
    let text = elements_text(alloc, &shown, stream, asked.first, asked.count)?;
    Ok(RunAnswer {
        text: text.into_bytes(),
        status: run.status(),
    })
}

/// The line that tells that there is no stream with this name.
fn unnamed_text(alloc: Global, name: &[u8]) -> Result<Vec<u8>, Memory>
    ensures { IfOk result (λ text. text.items ≡ unnamed_line name.now) }
{
    let mut text = Text::new(alloc);
    text.add(b"no stream ")?;
    text.add(name)?;
    text.add(b"\n")?;
    Ok(text.into_bytes())
}

/// Tells the elements of the stream that is asked for, or that there is none with its name.
pub(crate) fn tell_stream<R: Threads + Sync, G: Gate>(
    rt: &R,
    alloc: Global,
    asked: &StreamJob<'_>,
    source: &Source,
    input: &[u8],
    gate: &G,
) -> Result<StreamTold, Memory>
    requires within { AreTerms asked.now.job.terms }
    requires few { length input.now ≤ input_limit }
    requires source { IsSource source.now }
    ensures { IfOk result (λ told. IsTold asked.now.job.terms.task_budget asked.now.job.terms.control_budget source.now.text.items input.now
        (asked_of asked.now) told) }
{
    let tokens = tokens_of(alloc, &source.text)?;
    let names = stream_names(alloc, &tokens, source.checked.names.as_slice())?;
    let name = asked.name.as_bytes();
    match called_stream(&source.text, source.code.streams, &names, name) {
        Some(stream) => {
            let told = tell_elements(rt, alloc, asked, source, input, stream, gate)?;
            Ok(StreamTold::Elements(told))
        }
        None => {
            let told = unnamed_text(alloc, name)?;
            Ok(StreamTold::Unnamed(told))
        }
    }
}

/// Reads the files of a job, and tells of the stream that is asked for. Nothing is written.
pub(crate) fn make_stream<R: Threads + Sync, F: Files, G: Gate>(
    rt: &R,
    alloc: Global,
    asked: &StreamJob<'_>,
    files: &mut F,
    gate: &G,
) -> Result<StreamTold, Refusal>
    requires may { MayOpen (F.may files.old) (F.opens files.old) (files_of (RunRequest (job_of asked.now.job))) }
    requires within { IsWithin (job_of asked.now.job) }
    ensures { MakesStream F.Files files.old files.new (job_of asked.now.job) (asked_of asked.now) result }
{
    let read = read_run(alloc, files, &asked.job)?;
    let told = tell_stream(rt, alloc, asked, &read.source, &read.input, gate)?;
    Ok(told)
}
