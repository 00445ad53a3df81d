ghost use Rattle.std.specs.Prelude.{Some};
ghost use Rattle.osrun_core_jobs.specs.Files.{MayOpen, files_of};
ghost use Rattle.osrun_core_jobs.specs.Jobs.{IsWithin, Run as RunRequest, job_of};
ghost use Rattle.osrun_core_jobs.specs.Status.{status_code};
ghost use Rattle.osrun_core_answer.specs.Answers.{AnswersRequest};

use crate::make_run::make_run;
use os_io::{Files, Sink};
use osrun_core_jobs::{Job, Status, deliver, refuse};
use osrun_core_run::laws::never_usable_and_refused;
use std::alloc::Global;
use std::thread::Threads;
use task_workers::Gate;

/// Makes the run of a job and delivers it, or tells why there is none, and answers the status. All memory is taken before the
/// first byte is written.
pub fn answer_run<R: Threads + Sync, F: Files, O: Sink, E: Sink, G: Gate>(
    rt: &R,
    alloc: Global,
    job: &Job<'_>,
    files: &mut F,
    out: &mut O,
    report: &mut E,
    gate: &G,
) -> Status
    requires within { IsWithin (job_of job.now) }
    requires may { MayOpen (F.may files.old) (F.opens files.old) (files_of (RunRequest (job_of job.now))) }
    ensures { AnswersRequest F.Files files.old files.new O.Sink out.old out.new E.Sink report.old report.new
        (Some (RunRequest (job_of job.now))) (status_code result) }
{
    never_usable_and_refused();
    match make_run(rt, alloc, job, files, gate) {
        Ok(run) => deliver(out, report, &run.output, &run, run.status()),
        Err(refusal) => refuse(report, refusal),
    }
}
