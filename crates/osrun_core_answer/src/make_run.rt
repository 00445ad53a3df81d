ghost use Rattle.std.specs.Prelude.{IsTrue};
ghost use Rattle.osrun_core_jobs.specs.Files.{MayOpen, files_of};
ghost use Rattle.osrun_core_jobs.specs.Jobs.{IsWithin, Run as RunRequest, job_of};
ghost use Rattle.osrun_core_answer.specs.Made.{MakesRun, ReadsProgram};

use os_io::Files;
use osrun_core_jobs::{Job, Refusal, Subject, load};
use osrun_core_run::{MadeRun, accept, run_program_over};
use std::alloc::Global;
use std::thread::Threads;
use task_workers::Gate;
use window_check::Checked;

/// Reads a program and checks it.
pub fn read_program<F: Files>(alloc: Global, files: &mut F, name: &str) -> Result<Checked, Refusal>
    requires { IsTrue (F.may files.old (F.opens files.old) name.now) }
    ensures { ReadsProgram F.Files files.old files.new name.now result }
{
    let text = load(alloc, files, name, Subject::Program)?;
    let checked = accept(alloc, &text)?;
    Ok(checked)
}

/// Makes the run of a job, from its files on: the program is read and checked, the input is read, and the program is run over
/// it. Nothing is written.
pub fn make_run<R: Threads + Sync, F: Files, G: Gate>(
    rt: &R,
    alloc: Global,
    job: &Job<'_>,
    files: &mut F,
    gate: &G,
) -> Result<MadeRun, Refusal>
    requires may { MayOpen (F.may files.old) (F.opens files.old) (files_of (RunRequest (job_of job.now))) }
    requires within { IsWithin (job_of job.now) }
    ensures { MakesRun F.Files files.old files.new (job_of job.now) result }
{
    let checked = read_program(alloc, files, job.program)?;
    let input = load(alloc, files, job.input, Subject::Input)?;
    let run = run_program_over(rt, alloc, job.terms, &checked, input, gate)?;
    Ok(run)
}
