ghost use Rattle.std.specs.Prelude.{Some};
ghost use Rattle.osrun_core_answer.specs.Answers.{AnswersRequest};
ghost use Rattle.osrun_core_jobs.specs.Files.{MayOpen, files_of};
ghost use Rattle.osrun_core_jobs.specs.Jobs.{IsReplayWithin, Replay as ReplayRequest, replay_of};
ghost use Rattle.osrun_core_jobs.specs.Status.{status_code};

use crate::make_replay::make_replay;
use os_io::{Files, Sink};
use osrun_core_jobs::{ReplayJob, Status, deliver, refuse, tell};
use osrun_core_run::Replay;
use osrun_core_run::laws::never_usable_and_refused;
use std::alloc::Global;

/// Makes a run by the lists of a trace and delivers it, or tells what the lists come to, or why nothing was run, and answers the
/// status. All memory is taken before the first byte is written.
pub fn answer_replay<F: Files, O: Sink, E: Sink>(
    alloc: Global,
    job: &ReplayJob<'_>,
    files: &mut F,
    out: &mut O,
    report: &mut E,
) -> Status
    requires within { IsReplayWithin (replay_of job.now) }
    requires may { MayOpen (F.may files.old) (F.opens files.old) (files_of (ReplayRequest (replay_of job.now))) }
    ensures { AnswersRequest F.Files files.old files.new O.Sink out.old out.new E.Sink report.old report.new
        (Some (ReplayRequest (replay_of job.now))) (status_code result) }
{
    never_usable_and_refused();
    match make_replay(alloc, job, files) {
        Ok(Replay::Whole(run)) => deliver(out, report, &run.output, &run, run.status()),
        Ok(Replay::Told(line)) => {
            tell(report, line.as_bytes());
            Status::NotReplayed
        }
        Err(refusal) => refuse(report, refusal),
    }
}
