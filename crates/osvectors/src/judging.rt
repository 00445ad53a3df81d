//! A case that is run over bytes in memory, and judged.

ghost use Rattle.std.specs.Prelude.{◌≡◌, ◌++◌, IfOk, OnOk};
ghost use Rattle.std.specs.Option.{ForSome};
ghost use Rattle.os_io.specs.StoredFiles.{StoredFiles};
ghost use Rattle.osrun_core_jobs.specs.Files.{MayOpen, files_of};
ghost use Rattle.osrun_core_words.specs.Command.{command, texts};
ghost use Rattle.osvectors.specs.Judged.{IsJudged};
ghost use Rattle.osvectors.specs.Words.{files_with, run_words as case_words, stored_files};

use os_io::{Files, MemFiles, Memory};
use os_serve_jobs::{MemorySink, OUTPUT_ROOM};
use osrun_core::{Gate, NoGate, run_words};
use osvectors_cases::{Expected, Verdict, judge};
use std::alloc::Global;
use std::thread::Threads;

/// How the program of a case is called while it is run.
pub(crate) const PROGRAM: &str = "program";

/// How its input is called.
pub(crate) const INPUT: &str = "input";

/// What came of a run: the verdict, and what the command told.
#[derive(Drop)]
pub(crate) struct Judged {
    pub(crate) verdict: Verdict,
    pub(crate) output: MemorySink,
    pub(crate) report: MemorySink,
}

/// Adds words to others.
fn add_words(alloc: Global, words: &mut Vec<String>, more: &[String]) -> Result<(), Memory>
    ensures { OnOk result (texts words.new.items ≡ texts words.old.items ++ texts more.now) }
{
    for word in more {
        words.push(String::from_str(alloc, word.as_str())?)?;
    }
    Ok(())
}

/// The words by which a case with these options is run.
pub(crate) fn words_with(alloc: Global, options: &[String]) -> Result<Vec<String>, Memory>
    ensures { IfOk result (λ words. texts words.items ≡ case_words (texts options.now)) }
{
    let mut words = Vec::new(alloc);
    words.push(String::from_str(alloc, "run")?)?;
    words.push(String::from_str(alloc, PROGRAM)?)?;
    words.push(String::from_str(alloc, INPUT)?)?;
    add_words(alloc, &mut words, options)?;
    Ok(words)
}

/// Runs the command of the words, and judges it by its status and its output.
fn judge_run<R: Threads + Sync, F: Files, G: Gate>(
    rt: &R,
    alloc: Global,
    words: &[String],
    files: &mut F,
    wanted: &Expected,
    gate: &G,
) -> Judged
    requires { ForSome (command (texts words.now)) (λ request. MayOpen (F.may files.old) (F.opens files.old) (files_of request)) }
    ensures { IsJudged F.Files files.old files.new (command (texts words.now)) wanted.now result.verdict }
{
    let mut output = MemorySink::new(alloc, OUTPUT_ROOM);
    let mut report = MemorySink::new(alloc, OUTPUT_ROOM);
    let status = run_words(rt, alloc, words, files, &mut output, &mut report, gate);
    let verdict = judge(status, output.bytes(), wanted);
    Judged {
        verdict,
        output,
        report,
    }
}

/// The files of a case.
pub(crate) fn files_of_case(alloc: Global, program: &[u8], input: &[u8]) -> Result<MemFiles, Memory>
    ensures { IfOk result (λ files. files ≡ files_with program.now input.now) }
{
    let mut files = MemFiles::new(alloc);
    files.add(PROGRAM, program)?;
    files.add(INPUT, input)?;
    Ok(files)
}

/// Runs a case by its words over the bytes of its program and of its input, and judges it. It passes exactly where the run has the status 0, and
/// the wanted output.
pub(crate) fn judge_bytes<R: Threads + Sync>(
    rt: &R,
    alloc: Global,
    words: &[String],
    program: &[u8],
    input: &[u8],
    wanted: &Expected,
) -> Result<Judged, Memory>
    ensures { IfOk result (λ judged. (after : StoredFiles) × IsJudged stored_files (files_with program.now input.now) after
        (command (texts words.now)) wanted.now judged.verdict) }
{
    let mut files = files_of_case(alloc, program, input)?;
    Ok(judge_run(rt, alloc, words, &mut files, wanted, &NoGate))
}
