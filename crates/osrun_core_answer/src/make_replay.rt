ghost use Rattle.std.specs.Prelude.{IsTrue};
ghost use Rattle.osrun_core_answer.specs.Made.{MakesReplay, ReadsLists};
ghost use Rattle.osrun_core_jobs.specs.Files.{MayOpen, files_of};
ghost use Rattle.osrun_core_jobs.specs.Jobs.{IsReplayWithin, Replay as ReplayRequest, replay_of};

use crate::make_run::read_program;
use epoch_run::Budgets;
use os_io::{Files, List};
use osrun_core_jobs::{Refusal, ReplayJob, Subject, load};
use osrun_core_run::{Replay, accept_trace, replay_program};
use std::alloc::Global;

/// Reads the lists of a trace.
fn read_lists<F: Files>(
    alloc: Global,
    files: &mut F,
    name: &str,
) -> Result<List<List<u32>>, Refusal>
    requires { IsTrue (F.may files.old (F.opens files.old) name.now) }
    ensures { ReadsLists F.Files files.old files.new name.now result }
{
    let bytes = load(alloc, files, name, Subject::Trace)?;
    let lists = accept_trace(alloc, &bytes)?;
    Ok(lists)
}

/// Makes a run by the lists of a trace, from its files on, or the line that tells what the lists come to: the program is read and
/// checked, the input is read, the trace is read, and the program is run over the input by its lists. Nothing is written.
pub fn make_replay<F: Files>(
    alloc: Global,
    job: &ReplayJob<'_>,
    files: &mut F,
) -> Result<Replay, Refusal>
    requires may { MayOpen (F.may files.old) (F.opens files.old) (files_of (ReplayRequest (replay_of job.now))) }
    requires within { IsReplayWithin (replay_of job.now) }
    ensures { MakesReplay F.Files files.old files.new (replay_of job.now) result }
{
    let budgets = Budgets {
        task: job.task_budget,
        control: job.control_budget,
    };
    let checked = read_program(alloc, files, job.program)?;
    let input = load(alloc, files, job.input, Subject::Input)?;
    let lists = read_lists(alloc, files, job.trace)?;
    let replay = replay_program(alloc, budgets, &checked, &input, lists.as_slice())?;
    Ok(replay)
}
