ghost use Rattle.std.specs.Prelude.{IsTrue};
ghost use Rattle.osrun_core_jobs.specs.Files.{MayOpen, files_of};
ghost use Rattle.osrun_core_jobs.specs.Jobs.{Run as RunRequest, job_of};
ghost use Rattle.osview_answer.specs.Source.{ReadsRun, ReadsSource};

use os_code::Code;
use os_io::Files;
use osrun_core_jobs::{Job, Refusal, Subject, load};
use osrun_core_run::{accept, compile};
use std::alloc::Global;
use window_check::Checked;

/// A program: its text, what its names mean, and its code.
#[derive(Drop)]
pub(crate) struct Source {
    pub(crate) text: Vec<u8>,
    pub(crate) checked: Checked,
    pub(crate) code: Code,
}

/// What the files of a run hold.
#[derive(Drop)]
pub(crate) struct RunFiles {
    pub(crate) source: Source,
    pub(crate) input: Vec<u8>,
}

/// Reads a program, checks it and compiles it.
fn read_source<F: Files>(alloc: Global, files: &mut F, name: &str) -> Result<Source, Refusal>
    requires { IsTrue (F.may files.old (F.opens files.old) name.now) }
    ensures { ReadsSource F.Files files.old files.new name.now result }
{
    let text = load(alloc, files, name, Subject::Program)?;
    let checked = accept(alloc, &text)?;
    let code = compile(alloc, &checked)?;
    Ok(Source {
        text,
        checked,
        code,
    })
}

/// Reads the files of a run: its program, which is checked and compiled, and its input.
pub(crate) fn read_run<F: Files>(
    alloc: Global,
    files: &mut F,
    job: &Job<'_>,
) -> Result<RunFiles, Refusal>
    requires { MayOpen (F.may files.old) (F.opens files.old) (files_of (RunRequest (job_of job.now))) }
    ensures { ReadsRun F.Files files.old files.new (job_of job.now) result }
{
    let source = read_source(alloc, files, job.program)?;
    let input = load(alloc, files, job.input, Subject::Input)?;
    Ok(RunFiles { source, input })
}
