ghost use Rattle.osrun_core_jobs.specs.Files.{MayOpen, files_of};
ghost use Rattle.osrun_core_jobs.specs.Jobs.{IsWithin, Run as RunRequest, job_of};
ghost use Rattle.osview_answer.specs.AnswersStream.{AnswersStream};
ghost use Rattle.osview_answer.specs.Streams.{asked_of};

use crate::stream_job::StreamJob;
use crate::stream_telling::{StreamTold, make_stream};
use os_io::{Files, Sink};
use osrun_core_jobs::{NoLines, Status, deliver, refuse, tell};
use std::alloc::Global;
use std::thread::Threads;
use task_workers::Gate;

/// Runs the program of a job over its input and writes the elements of one of its streams on `out`, a line each: the position, the
/// value, or `poison` with its root, or `none`, and who writes there. It answers the status that `osrun run` has; where the program
/// has no stream with this name it tells so on `report` and answers 2, and where there is no run it tells why. All memory is taken
/// before the first byte is written.
pub fn answer_stream<R: Threads + Sync, F: Files, O: Sink, E: Sink, G: Gate>(
    rt: &R,
    alloc: Global,
    asked: &StreamJob<'_>,
    files: &mut F,
    out: &mut O,
    report: &mut E,
    gate: &G,
) -> Status
    requires within { IsWithin (job_of asked.now.job) }
    requires may { MayOpen (F.may files.old) (F.opens files.old) (files_of (RunRequest (job_of asked.now.job))) }
    ensures { AnswersStream F.Files files.old files.new O.Sink out.old out.new E.Sink report.old report.new
        (job_of asked.now.job) (asked_of asked.now) result }
{
    match make_stream(rt, alloc, asked, files, gate) {
        Ok(StreamTold::Elements(told)) => {
            deliver(out, report, &told.text, &NoLines, told.status)
        }
        Ok(StreamTold::Unnamed(line)) => {
            tell(report, &line);
            Status::BadWords
        }
        Err(refusal) => refuse(report, refusal),
    }
}
