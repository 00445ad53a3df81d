ghost use Rattle.osrun_core_jobs.specs.Files.{MayOpen, files_of};
ghost use Rattle.osrun_core_jobs.specs.Jobs.{IsWithin, Run as RunRequest, job_of};
ghost use Rattle.osview_answer.specs.AnswersExplain.{AnswersExplain};

use crate::explain_job::ExplainJob;
use crate::explain_telling::make_explanation;
use os_io::{Files, Sink};
use osrun_core_jobs::{NoLines, Status, deliver, refuse};
use std::alloc::Global;
use std::thread::Threads;
use task_workers::Gate;

/// Runs the program of a job over its input and writes why one of the activations never ran, a sentence for each member of its chain;
/// or what became of it; or tells on `report` why there is no run. It answers the status that `osrun explain` has: 0 where the
/// activation is starved, else 1. All memory is taken before the first byte is written.
pub fn answer_explain<R: Threads + Sync, F: Files, O: Sink, E: Sink, G: Gate>(
    rt: &R,
    alloc: Global,
    asked: &ExplainJob<'_>,
    files: &mut F,
    out: &mut O,
    report: &mut E,
    gate: &G,
) -> Status
    requires within { IsWithin (job_of asked.now.job) }
    requires may { MayOpen (F.may files.old) (F.opens files.old) (files_of (RunRequest (job_of asked.now.job))) }
    ensures { AnswersExplain F.Files files.old files.new O.Sink out.old out.new E.Sink report.old report.new
        (job_of asked.now.job) asked.now.activation result }
{
    match make_explanation(rt, alloc, asked, files, gate) {
        Ok(told) => deliver(out, report, &told.text, &NoLines, told.status),
        Err(refusal) => refuse(report, refusal),
    }
}
