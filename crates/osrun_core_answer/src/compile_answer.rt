ghost use Rattle.std.specs.Prelude.{Some};
ghost use Rattle.osrun_core_answer.specs.Answers.{AnswersRequest};
ghost use Rattle.osrun_core_jobs.specs.Files.{MayOpen, files_of};
ghost use Rattle.osrun_core_jobs.specs.Jobs.{Compile as CompileRequest, compile_of};
ghost use Rattle.osrun_core_jobs.specs.Status.{status_code};

use crate::make_object::make_object;
use os_io::{Files, Sink};
use osrun_core_jobs::{CompileJob, NoLines, Status, deliver, refuse};
use osrun_core_run::laws::never_usable_and_refused;
use std::alloc::Global;

/// Writes the object of a program's code, or tells why there is none, and answers the status. All memory is taken before the first
/// byte is written.
pub fn answer_compile<F: Files, O: Sink, E: Sink>(
    alloc: Global,
    job: &CompileJob<'_>,
    files: &mut F,
    out: &mut O,
    report: &mut E,
) -> Status
    requires { MayOpen (F.may files.old) (F.opens files.old) (files_of (CompileRequest (compile_of job.now))) }
    ensures { AnswersRequest F.Files files.old files.new O.Sink out.old out.new E.Sink report.old report.new
        (Some (CompileRequest (compile_of job.now))) (status_code result) }
{
    never_usable_and_refused();
    match make_object(alloc, job, files) {
        Ok(object) => deliver(out, report, &object, &NoLines, Status::AllDone),
        Err(refusal) => refuse(report, refusal),
    }
}
