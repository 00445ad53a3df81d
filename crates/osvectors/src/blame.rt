//! Who wrote a byte of the output.

ghost use Rattle.std.specs.Prelude.{IfOk, IfSome};
ghost use Rattle.osrun_core_run.specs.RunOf.{AreTerms};

use crate::judging::{INPUT, PROGRAM, files_of_case};
use os_io::Memory;
use os_serve_jobs::{MemorySink, OUTPUT_ROOM};
use osrun_core::NoGate;
use osrun_core_jobs::{Job, Request, Terms};
use osrun_core_words::{WordsError, command};
use osview_answer::{StreamJob, answer_stream};
use std::alloc::Global;
use std::thread::Threads;

/// The stream of the output's bytes.
const OUTPUT: &str = "osout";

/// On which terms words run a program, if they do.
fn terms_of(alloc: Global, words: &[String]) -> Result<Option<Terms>, Memory>
    ensures { IfOk result (λ found. IfSome found AreTerms) }
{
    match command(alloc, words) {
        Ok(Request::Run(job)) => Ok(Some(job.terms)),
        Err(WordsError::Memory) => Err(Memory),
        _ => Ok(None),
    }
}

/// Whether the words run a program, so that a line with them is a case.
pub(crate) fn are_of_run(alloc: Global, words: &[String]) -> Result<bool, Memory> {
    Ok(terms_of(alloc, words)?.is_some())
}

/// The line that `osview stream` has of a byte of the output of a case, by the place of the byte: the element and who wrote it. Nothing where nobody does.
pub(crate) fn line_of_byte<R: Threads + Sync>(
    rt: &R,
    alloc: Global,
    words: &[String],
    program: &[u8],
    input: &[u8],
    place: usize,
) -> Result<MemorySink, Memory> {
    let mut told = MemorySink::new(alloc, OUTPUT_ROOM);
    let mut report = MemorySink::new(alloc, OUTPUT_ROOM);
    let Some(terms) = terms_of(alloc, words)? else {
        return Ok(told);
    };
    let mut files = files_of_case(alloc, program, input)?;
    let asked = StreamJob {
        job: Job {
            program: PROGRAM,
            input: INPUT,
            terms,
        },
        name: OUTPUT,
        first: place as u64,
        count: 1,
    };
    let _ = answer_stream(
        rt,
        alloc,
        &asked,
        &mut files,
        &mut told,
        &mut report,
        &NoGate,
    );
    Ok(told)
}
