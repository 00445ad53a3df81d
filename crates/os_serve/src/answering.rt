ghost use Rattle.std.specs.Prelude.{◌≡◌, ◌<◌, ◌≤◌, ◌∷◌, ℕ, IsTrue, List, max, vec_len};
ghost use Rattle.os_serve.specs.Command.{MayRun, MayServe};
ghost use Rattle.os_serve.specs.Commands.{IsReplyTo, most_waiting};
ghost use Rattle.os_serve_answers.specs.Answered.{AnswersAll, AnswersNext};
ghost use Rattle.os_serve_jobs.specs.Reading.{IsFresh, IsReading, waiting_lines};
ghost use Rattle.os_serve_jobs.specs.Words.{IsText};

use crate::beside::answer_beside;
use os_io::{Files, Sink};
use os_serve_answers::{ServeError, write_answer};
use os_serve_jobs::{Reading, take_first};
use osrun_core::Gate;
use std::alloc::Global;
use std::thread::Threads;

/// Answers the first of the jobs that wait. Where memory is wanted for its words, it waits no more, and nothing else has changed.
fn answer_next<R: Threads + Sync, J: Files + Send, F: Files + Send, O: Sink, G: Gate>(
    rt: &R,
    alloc: Global,
    jobs: &mut J,
    reading: &mut Reading,
    waiting: &mut Vec<Vec<u8>>,
    files: &mut F,
    out: &mut O,
    gate: &G,
    number: u32,
) -> Result<(), ServeError>
    requires is_reading { IsReading reading.old }
    requires given { J.given jobs.old ≡ reading.old.total }
    requires waits { 0 < vec_len waiting.old }
    requires may { (line : List ℕ) (more : List (List ℕ)) → waiting_lines waiting.old.items ≡ line ∷ more
        → IsText line → MayRun (F.may files.old) line }
    ensures is_reading { IsReading reading.new }
    ensures given { J.given jobs.new ≡ reading.new.total }
    ensures may { F.may files.new ≡ F.may files.old }
    ensures few { vec_len waiting.new ≤ max most_waiting (vec_len waiting.old) }
    ensures next { AnswersNext J.Files jobs.old jobs.new reading.old reading.new (waiting_lines waiting.old.items) (waiting_lines waiting.new.items)
        (IsReplyTo F.Files) files.old files.new O.Sink out.old out.new number result }
{
    let line = take_first(waiting);
    let (answer, read) = answer_beside(rt, alloc, jobs, reading, waiting, &line, files, gate);
    let Ok(answer) = answer else {
        return Err(ServeError::Memory);
    };
    if write_answer(out, number, &answer).is_err() {
        return Err(ServeError::Write);
    }
    if read.is_err() {
        return Err(ServeError::Memory);
    }
    Ok(())
}

/// Opens the file of jobs and answers them all, in their order. The reading then says how the file ended.
pub(crate) fn answer_all<R: Threads + Sync, J: Files + Send, F: Files + Send, O: Sink, G: Gate>(
    rt: &R,
    alloc: Global,
    name: &str,
    jobs: &mut J,
    reading: &mut Reading,
    files: &mut F,
    out: &mut O,
    gate: &G,
) -> Result<(), ServeError>
    requires fresh { IsFresh reading.old }
    requires jobs { IsTrue (J.may jobs.old (J.opens jobs.old) name.now) }
    requires files { MayServe (J.holds jobs.old name.now) (F.may files.old) }
    ensures { AnswersAll J.Files (J.holds jobs.old name.now) (J.faults jobs.old) jobs.new reading.new (IsReplyTo F.Files) files.old files.new
        O.Sink out.old out.new result }
{
    reading.open(jobs, name);
    let mut waiting = Vec::new(alloc);
    let mut number = 0;
    'serving: loop {
        if reading.read_on(alloc, jobs, &mut waiting, 1).is_err() {
            return Err(ServeError::Memory);
        }
        if waiting.is_empty() {
            return Ok(());
        }
        let step = answer_next(
            rt,
            alloc,
            jobs,
            reading,
            &mut waiting,
            files,
            out,
            gate,
            number,
        );
        if step.is_err() {
            return step;
        }
        number += 1;
    }
}
