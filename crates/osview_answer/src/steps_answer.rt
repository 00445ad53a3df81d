ghost use Rattle.osrun_core_jobs.specs.Files.{MayOpen, files_of};
ghost use Rattle.osrun_core_jobs.specs.Jobs.{IsWithin, Run as RunRequest, job_of};
ghost use Rattle.osview_answer.specs.AnswersSteps.{AnswersSteps};

use crate::steps_telling::make_steps;
use os_io::{Files, Sink};
use osrun_core_jobs::{Job, NoLines, Status, deliver, refuse};
use std::alloc::Global;
use std::thread::Threads;
use task_workers::Gate;

/// Runs the program of a job over its input and writes on `out` how many steps it takes: a line for `main` and one for each task, the
/// steps of a longest chain of activations that wait for one another, and how many times as fast more workers can make the tasks; or
/// tells on `report` why there is no run. It answers the status that `osrun run` has. All memory is taken before the first byte is written.
pub fn answer_steps<R: Threads + Sync, F: Files, O: Sink, E: Sink, G: Gate>(
    rt: &R,
    alloc: Global,
    job: &Job<'_>,
    files: &mut F,
    out: &mut O,
    report: &mut E,
    gate: &G,
) -> Status
    requires within { IsWithin (job_of job.now) }
    requires may { MayOpen (F.may files.old) (F.opens files.old) (files_of (RunRequest (job_of job.now))) }
    ensures { AnswersSteps F.Files files.old files.new O.Sink out.old out.new E.Sink report.old report.new (job_of job.now) result }
{
    match make_steps(rt, alloc, job, files, gate) {
        Ok(told) => deliver(out, report, &told.text, &NoLines, told.status),
        Err(refusal) => refuse(report, refusal),
    }
}
