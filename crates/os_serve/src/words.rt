ghost use Rattle.std.specs.Prelude.{◌≡◌, None, IfSome, IsTrue, false, true};
ghost use Rattle.std.specs.Option.{ForSome};
ghost use Rattle.osrun_core_answer.specs.Answers.{AnswersRequest};
ghost use Rattle.osrun_core_jobs.specs.Files.{MayOpen, files_of};
ghost use Rattle.osrun_core_words.specs.Command.{command, texts};
ghost use Rattle.os_serve.specs.Command.{MayServe, is_serve, named_jobs};
ghost use Rattle.os_serve.specs.Commands.{IsReplyTo};
ghost use Rattle.os_serve_answers.specs.Serving.{RefusesWords, Serves};

use crate::asked::{Asked, asks_for};
use crate::serving::serve;
use os_io::{Files, Sink};
use osrun_core::{Gate, run_words};
use osrun_core_jobs::{Status, USAGE, tell};
use std::alloc::Global;
use std::thread::Threads;

/// Runs the command that the words name, and answers the status of the process. Where the first word is `serve`, it answers the jobs
/// of a file on `out`; else it is `run_words`, and `jobs` isn't touched.
pub fn serve_words<R: Threads + Sync, J: Files + Send, F: Files + Send, O: Sink, E: Sink, G: Gate>(
    rt: &R,
    alloc: Global,
    words: &[String],
    jobs: &mut J,
    files: &mut F,
    out: &mut O,
    report: &mut E,
    gate: &G,
) -> u8
    // what may be opened
    requires other { is_serve (texts words.now) ≡ false → ForSome (command (texts words.now))
        (λ request. MayOpen (F.may files.old) (F.opens files.old) (files_of request)) }
    requires jobs { ForSome (named_jobs (texts words.now)) (λ name. IsTrue (J.may jobs.old (J.opens jobs.old) name)) }
    requires files { ForSome (named_jobs (texts words.now)) (λ name. MayServe (J.holds jobs.old name) (F.may files.old)) }
    // where the first word isn't `serve`
    ensures other { is_serve (texts words.now) ≡ false → AnswersRequest F.Files files.old files.new O.Sink out.old out.new E.Sink report.old
        report.new (command (texts words.now)) result }
    ensures untouched { is_serve (texts words.now) ≡ false → jobs.new ≡ jobs.old }
    // where the first word is `serve`
    ensures served { IfSome (named_jobs (texts words.now)) (λ name. Serves J.Files jobs.old jobs.new (IsReplyTo F.Files) files.old files.new O.Sink out.old
        out.new E.Sink report.old report.new name result) }
    ensures refused { is_serve (texts words.now) ≡ true → named_jobs (texts words.now) ≡ None
        → RefusesWords jobs.old jobs.new files.old files.new out.old out.new E.Sink report.old report.new result }
{
    match asks_for(words) {
        Asked::Otherwise => run_words(rt, alloc, words, files, out, report, gate),
        Asked::Wrongly => {
            tell(report, USAGE);
            Status::BadWords.code()
        }
        Asked::Jobs(name) => serve(rt, alloc, name, jobs, files, out, report, gate).code(),
    }
}
