ghost use Rattle.std.specs.Prelude.{IsTrue};
ghost use Rattle.osrun_core_answer.specs.Made.{MakesExec, ReadsObject};
ghost use Rattle.osrun_core_jobs.specs.Files.{MayOpen, files_of};
ghost use Rattle.osrun_core_jobs.specs.Jobs.{Exec as ExecRequest, IsExecWithin, exec_of};

use os_code::Code;
use os_io::Files;
use osrun_core_jobs::{ExecJob, Refusal, Subject, load};
use osrun_core_run::{MadeRun, accept_object, run_code_over};
use std::alloc::Global;
use std::thread::Threads;
use task_workers::Gate;

/// Reads an object.
fn read_object<F: Files>(alloc: Global, files: &mut F, name: &str) -> Result<Code, Refusal>
    requires { IsTrue (F.may files.old (F.opens files.old) name.now) }
    ensures { ReadsObject F.Files files.old files.new name.now result }
{
    let object = load(alloc, files, name, Subject::Object)?;
    let code = accept_object(alloc, &object)?;
    Ok(code)
}

/// Makes the run of an object, from its files on: the object is read, the input is read, and the code is run over it. Nothing is
/// written.
pub fn make_exec<R: Threads + Sync, F: Files, G: Gate>(
    rt: &R,
    alloc: Global,
    job: &ExecJob<'_>,
    files: &mut F,
    gate: &G,
) -> Result<MadeRun, Refusal>
    requires may { MayOpen (F.may files.old) (F.opens files.old) (files_of (ExecRequest (exec_of job.now))) }
    requires within { IsExecWithin (exec_of job.now) }
    ensures { MakesExec F.Files files.old files.new (exec_of job.now) result }
{
    let code = read_object(alloc, files, job.object)?;
    let input = load(alloc, files, job.input, Subject::Input)?;
    let run = run_code_over(rt, alloc, job.terms, &code, input, gate)?;
    Ok(run)
}
