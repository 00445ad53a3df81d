ghost use Rattle.std.specs.Prelude.{◌≡◌, IfOk, OnErr};
ghost use Rattle.std.specs.Option.{ForSome};
ghost use Rattle.osrun_core_jobs.specs.Files.{MayOpen, files_of};
ghost use Rattle.osrun_core_words.specs.Command.{command, texts};
ghost use Rattle.os_serve.specs.Command.{MayRun};
ghost use Rattle.os_serve.specs.Commands.{IsReplyOf, IsReplyTo};
ghost use Rattle.os_serve_answers.specs.Replies.{reply_of};
ghost use Rattle.os_serve_jobs.specs.Words.{IsText};

use crate::asked::asks_to_serve;
use os_io::{Files, Memory};
use os_serve_answers::JobAnswer;
use os_serve_jobs::{MemorySink, OUTPUT_ROOM, words_of};
use osrun_core::{Gate, run_words};
use std::alloc::Global;
use std::thread::Threads;

/// How many bytes the report of a job may have.
const REPORT_ROOM: u32 = 8_400_000;

/// Runs the job of a line. `Memory` comes where its words find none, and leaves the files as they were.
pub(crate) fn answer_job<R: Threads + Sync, F: Files, G: Gate>(
    rt: &R,
    alloc: Global,
    line: &[u8],
    files: &mut F,
    gate: &G,
) -> Result<JobAnswer, Memory>
    requires { IsText line.now → MayRun (F.may files.old) line.now }
    ensures reply { IfOk result (λ answer. IsReplyTo F.Files files.old files.new line.now (reply_of answer)) }
    ensures files { OnErr result (files.new ≡ files.old) }
    ensures may { F.may files.new ≡ F.may files.old }
{
    let Some(words) = words_of(alloc, line)? else {
        return Ok(JobAnswer::NoJob);
    };
    if asks_to_serve(&words) {
        return Ok(JobAnswer::NoJob);
    }
    Ok(run_job(rt, alloc, &words, files, gate))
}

/// Runs the command that words name, over fresh sinks in memory.
fn run_job<R: Threads + Sync, F: Files, G: Gate>(
    rt: &R,
    alloc: Global,
    words: &[String],
    files: &mut F,
    gate: &G,
) -> JobAnswer
    requires { ForSome (command (texts words.now))
        (λ request. MayOpen (F.may files.old) (F.opens files.old) (files_of request)) }
    ensures reply { IsReplyOf F.Files files.old files.new (texts words.now) (reply_of result) }
    ensures may { F.may files.new ≡ F.may files.old }
{
    let mut output = MemorySink::new(alloc, OUTPUT_ROOM);
    let mut report = MemorySink::new(alloc, REPORT_ROOM);
    let status = run_words(rt, alloc, words, files, &mut output, &mut report, gate);
    JobAnswer::of_command(status, output, report)
}
