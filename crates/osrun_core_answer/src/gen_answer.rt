ghost use Rattle.osrun_core_jobs.specs.Jobs.{IsGenWithin, gen_of};
ghost use Rattle.osrun_core_answer.specs.Made.{AnswersGen};

use crate::gen_text::gen_text;
use os_io::Sink;
use osrun_core_jobs::{GenJob, NoLines, Status, deliver};
use std::alloc::Global;
use std::thread::Threads;
use task_workers::Gate;

/// Writes what comes of a run of the kernel over bytes that are made, and answers the status. All memory is taken
/// before the first byte is written.
pub fn answer_gen<R: Threads + Sync, O: Sink, E: Sink, G: Gate>(
    rt: &R,
    alloc: Global,
    job: &GenJob,
    out: &mut O,
    report: &mut E,
    gate: &G,
) -> Status
    requires { IsGenWithin (gen_of job.now) }
    ensures { AnswersGen O.Sink out.old out.new E.Sink report.old report.new (gen_of job.now) result }
{
    match gen_text(rt, alloc, job, gate) {
        Ok(text) => deliver(out, report, text.as_bytes(), &NoLines, Status::AllDone),
        Err(_) => Status::NoMemory,
    }
}
