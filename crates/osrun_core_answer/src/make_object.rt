ghost use Rattle.std.specs.Prelude.{MatchResult};
ghost use Rattle.osrun_core_answer.specs.Made.{IsCompiledOf, IsUnmadeOf};
ghost use Rattle.osrun_core_jobs.specs.Files.{MayOpen, files_of};
ghost use Rattle.osrun_core_jobs.specs.Jobs.{Compile as CompileRequest, compile_of};

use crate::make_run::read_program;
use os_io::Files;
use os_object::encode;
use osrun_core_jobs::{CompileJob, Refusal};
use osrun_core_run::compile;
use std::alloc::Global;

/// Makes the object of a program's code, from its file on: the program is read, checked and compiled. Nothing is written.
pub fn make_object<F: Files>(
    alloc: Global,
    job: &CompileJob<'_>,
    files: &mut F,
) -> Result<Vec<u8>, Refusal>
    requires { MayOpen (F.may files.old) (F.opens files.old) (files_of (CompileRequest (compile_of job.now))) }
    ensures { MatchResult result (λ object. IsCompiledOf F.Files files.old files.new (compile_of job.now) object.items)
        (IsUnmadeOf F.Files files.old files.new (files_of (CompileRequest (compile_of job.now)))) }
{
    let checked = read_program(alloc, files, job.program)?;
    let code = compile(alloc, &checked)?;
    let object = encode(alloc, &code)?;
    Ok(object)
}
