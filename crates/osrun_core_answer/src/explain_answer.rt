ghost use Rattle.std.specs.Prelude.{Some};
ghost use Rattle.osrun_core_answer.specs.Answers.{AnswersRequest};
ghost use Rattle.osrun_core_jobs.specs.Files.{MayOpen, files_of};
ghost use Rattle.osrun_core_jobs.specs.Jobs.{Explain as ExplainRequest, IsExplainWithin, explain_of};
ghost use Rattle.osrun_core_jobs.specs.Status.{status_code};

use crate::make_explain::make_explanation;
use os_io::{Files, Sink};
use osrun_core_jobs::{ExplainJob, NoLines, Status, deliver, refuse};
use osrun_core_run::laws::never_usable_and_refused;
use std::alloc::Global;
use std::thread::Threads;
use task_workers::Gate;

/// Makes the run of a program and writes the line that tells of one of its activations, or tells why there is no run, and answers
/// the status. All memory is taken before the first byte is written.
pub fn answer_explain<R: Threads + Sync, F: Files, O: Sink, E: Sink, G: Gate>(
    rt: &R,
    alloc: Global,
    job: &ExplainJob<'_>,
    files: &mut F,
    out: &mut O,
    report: &mut E,
    gate: &G,
) -> Status
    requires within { IsExplainWithin (explain_of job.now) }
    requires may { MayOpen (F.may files.old) (F.opens files.old) (files_of (ExplainRequest (explain_of job.now))) }
    ensures { AnswersRequest F.Files files.old files.new O.Sink out.old out.new E.Sink report.old report.new
        (Some (ExplainRequest (explain_of job.now))) (status_code result) }
{
    never_usable_and_refused();
    match make_explanation(rt, alloc, job, files, gate) {
        Ok(told) => deliver(out, report, told.text.as_bytes(), &NoLines, told.status),
        Err(refusal) => refuse(report, refusal),
    }
}
