ghost use Rattle.std.specs.Prelude.{Some};
ghost use Rattle.osrun_core_answer.specs.Answers.{AnswersRequest};
ghost use Rattle.osrun_core_jobs.specs.Files.{MayOpen, files_of};
ghost use Rattle.osrun_core_jobs.specs.Jobs.{IsWithin, Trace as TraceRequest, job_of};
ghost use Rattle.osrun_core_jobs.specs.Status.{status_code};

use crate::make_trace::make_trace;
use os_io::{Files, Sink};
use osrun_core_jobs::{Job, Status, deliver, refuse};
use osrun_core_run::laws::never_usable_and_refused;
use std::alloc::Global;
use std::thread::Threads;
use task_workers::Gate;

/// Makes the run of a program and delivers its trace and its report, or tells why there is no run, and answers the status. All memory
/// is taken before the first byte is written.
pub fn answer_trace<R: Threads + Sync, F: Files, O: Sink, E: Sink, G: Gate>(
    rt: &R,
    alloc: Global,
    job: &Job<'_>,
    files: &mut F,
    out: &mut O,
    report: &mut E,
    gate: &G,
) -> Status
    requires within { IsWithin (job_of job.now) }
    requires may { MayOpen (F.may files.old) (F.opens files.old) (files_of (TraceRequest (job_of job.now))) }
    ensures { AnswersRequest F.Files files.old files.new O.Sink out.old out.new E.Sink report.old report.new
        (Some (TraceRequest (job_of job.now))) (status_code result) }
{
    never_usable_and_refused();
    match make_trace(rt, alloc, job, files, gate) {
        Ok(traced) => deliver(out, report, &traced.text, &traced.run, traced.run.status()),
        Err(refusal) => refuse(report, refusal),
    }
}
