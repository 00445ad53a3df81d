//! A job and the reading of further lines, side by side.

ghost use Rattle.std.specs.Prelude.{◌≡◌, ◌≤◌, IfOk, OnErr, max, vec_len};
ghost use denote.Param.Send.{IsSync};
ghost use Rattle.os_serve.specs.Command.{MayRun};
ghost use Rattle.os_serve.specs.Commands.{IsReplyTo, most_waiting};
ghost use Rattle.os_serve_answers.specs.Replies.{reply_of};
ghost use Rattle.os_serve_jobs.specs.Reading.{IsReading, ReadsOn, waiting_lines};
ghost use Rattle.os_serve_jobs.specs.Words.{IsText};

use crate::commands::answer_job;
use os_io::{Files, Memory};
use os_serve_answers::JobAnswer;
use os_serve_jobs::Reading;
use osrun_core::Gate;
use std::alloc::Global;
use std::thread::{Threads, join_mut};

/// How many jobs wait at most, with the one that runs.
const WAITING: usize = 16;

/// Runs the job of a line, and reads on beside it until `WAITING` jobs wait, this one among them, or none can come any more. Lines that were read already are
/// cut off first, so that nothing is read where enough jobs wait then. It answers what the job came to, and whether memory was found
/// for what was read.
pub(crate) fn answer_beside<R: Threads + Sync, J: Files + Send, F: Files + Send, G: Gate>(
    rt: &R,
    alloc: Global,
    jobs: &mut J,
    reading: &mut Reading,
    waiting: &mut Vec<Vec<u8>>,
    line: &[u8],
    files: &mut F,
    gate: &G,
) -> (Result<JobAnswer, Memory>, Result<(), Memory>)
    requires is_reading { IsReading reading.old }
    requires given { J.given jobs.old ≡ reading.old.total }
    requires may { IsText line.now → MayRun (F.may files.old) line.now }
    ensures is_reading { IsReading reading.new }
    ensures given { J.given jobs.new ≡ reading.new.total }
    ensures reads { ReadsOn J.Files jobs.old jobs.new reading.old reading.new (waiting_lines waiting.old.items) (waiting_lines waiting.new.items) }
    ensures few { vec_len waiting.new ≤ max most_waiting (vec_len waiting.old) }
    ensures reply { IfOk result.0 (λ answer. IsReplyTo F.Files files.old files.new line.now (reply_of answer)) }
    ensures files { OnErr result.0 (files.new ≡ files.old) }
    ensures may { F.may files.new ≡ F.may files.old }
{
    let cut = reading.cut_on(alloc, waiting, WAITING - 1);
    if cut.is_err() || waiting.len() + 1 >= WAITING || reading.is_done() {
        return (answer_job(rt, alloc, line, files, gate), cut);
    }
    both(rt, alloc, jobs, reading, waiting, line, files, gate)
}

/// Answers the line and reads on at the same time.
fn both<R: Threads + Sync, J: Files + Send, F: Files + Send, G: Gate>(
    rt: &R,
    alloc: Global,
    jobs: &mut J,
    reading: &mut Reading,
    waiting: &mut Vec<Vec<u8>>,
    line: &[u8],
    files: &mut F,
    gate: &G,
) -> (Result<JobAnswer, Memory>, Result<(), Memory>)
    requires is_reading { IsReading reading.old }
    requires given { J.given jobs.old ≡ reading.old.total }
    requires may { IsText line.now → MayRun (F.may files.old) line.now }
    ensures is_reading { IsReading reading.new }
    ensures given { J.given jobs.new ≡ reading.new.total }
    ensures reads { ReadsOn J.Files jobs.old jobs.new reading.old reading.new (waiting_lines waiting.old.items) (waiting_lines waiting.new.items) }
    ensures few { vec_len waiting.new ≤ max most_waiting (vec_len waiting.old) }
    ensures reply { IfOk result.0 (λ answer. IsReplyTo F.Files files.old files.new line.now (reply_of answer)) }
    ensures files { OnErr result.0 (files.new ≡ files.old) }
    ensures may { F.may files.new ≡ F.may files.old }
{
    let mut read = || -> Result<(), Memory>
        requires { IsReading reading.now × (J.given jobs.now ≡ reading.now.total) }
        ensures { IsReading reading.exit.now × (J.given jobs.exit.now ≡ reading.exit.now.total)
            × ReadsOn J.Files jobs.entry.now jobs.exit.now reading.entry.now reading.exit.now (waiting_lines waiting.entry.now.items)
            (waiting_lines waiting.exit.now.items)
            × (vec_len waiting.exit.now ≤ max most_waiting (vec_len waiting.entry.now)) }
    { reading.read_on(alloc, jobs, waiting, WAITING - 1) };
    let mut run = || -> Result<JobAnswer, Memory>
        requires { IsSync R.row × IsSync G.row × (IsText line.now → MayRun (F.may files.now) line.now) }
        ensures { IfOk result (λ answer. IsReplyTo F.Files files.entry.now files.exit.now line.entry.now (reply_of answer))
            × OnErr result (files.exit.now ≡ files.entry.now) × (F.may files.exit.now ≡ F.may files.entry.now) }
    { answer_job(rt, alloc, line, files, gate) };
    let (read, answer) = join_mut(rt, &mut read, &mut run);
    (answer, read)
}
