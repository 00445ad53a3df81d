ghost use Rattle.std.specs.Option.{ForSome};
ghost use Rattle.osrun_core_answer.specs.Answers.{AnswersRequest};
ghost use Rattle.osrun_core_jobs.specs.Files.{MayOpen, files_of};
ghost use Rattle.osrun_core_words.specs.Command.{command, texts};

use os_io::{Files, Sink};
use osrun_core_answer::{
    answer_compile, answer_exec, answer_explain, answer_gen, answer_replay, answer_run,
    answer_trace,
};
use osrun_core_jobs::{Request, Status, USAGE, tell};
use osrun_core_run::laws::never_usable_and_refused;
use osrun_core_words::{WordsError, command};
use std::alloc::Global;
use std::thread::Threads;
use task_workers::Gate;

/// Runs the command that the words name, and answers the status of the process. What it leaves is said by one record: the status
/// and its cause, what the sinks took, and what was opened and read in which order. `laws::answers_say` has what that comes to,
/// status by status.
pub fn run_words<R: Threads + Sync, F: Files, O: Sink, E: Sink, G: Gate>(
    rt: &R,
    alloc: Global,
    words: &[String],
    files: &mut F,
    out: &mut O,
    report: &mut E,
    gate: &G,
) -> u8
    requires { ForSome (command (texts words.now))
        (λ request. MayOpen (F.may files.old) (F.opens files.old) (files_of request)) }
    ensures { AnswersRequest F.Files files.old files.new O.Sink out.old out.new E.Sink report.old report.new
        (command (texts words.now)) result }
{
    never_usable_and_refused();
    match command(alloc, words) {
        Ok(Request::Run(job)) => answer_run(rt, alloc, &job, files, out, report, gate).code(),
        Ok(Request::Gen(job)) => answer_gen(rt, alloc, &job, out, report, gate).code(),
        Ok(Request::Compile(job)) => answer_compile(alloc, &job, files, out, report).code(),
        Ok(Request::Exec(job)) => answer_exec(rt, alloc, &job, files, out, report, gate).code(),
        Ok(Request::Explain(job)) => {
            answer_explain(rt, alloc, &job, files, out, report, gate).code()
        }
        Ok(Request::Trace(job)) => answer_trace(rt, alloc, &job, files, out, report, gate).code(),
        Ok(Request::Replay(job)) => answer_replay(alloc, &job, files, out, report).code(),
        Err(WordsError::Refused) => {
            tell(report, USAGE);
            Status::BadWords.code()
        }
        Err(WordsError::Memory) => Status::NoMemory.code(),
    }
}
