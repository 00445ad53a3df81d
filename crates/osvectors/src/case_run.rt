//! A case from the names of its files to the row of a report.

use crate::judging::{judge_bytes, words_with};
use crate::loading::{NoBytes, bytes_of};
use crate::status::Status;
use crate::why::{Run, why_of};
use os_io::Memory;
use osvectors_cases::{Case, Expected, NumberedCase, Outcome, Row, Verdict, Wanted};
use osview_text::Text;
use std::alloc::Global;
use std::rt::Files;
use std::thread::Threads;

/// What came of a case: its row, and the status that it gives the program.
#[derive(Drop)]
pub(crate) struct CaseResult {
    pub(crate) row: Row,
    pub(crate) status: Status,
}

/// What a case was found to be, without its title.
#[derive(Drop)]
struct Found {
    outcome: Outcome,
    why: Vec<u8>,
    status: Status,
}

/// The bytes of the files of a case.
#[derive(Drop)]
struct CaseBytes {
    program: Vec<u8>,
    input: Vec<u8>,
    wanted: Expected,
}

/// Which file of a case can't be had, and why.
#[derive(Clone, Copy)]
struct Missing<'a> {
    name: &'a str,
    why: NoBytes,
}

/// The bytes of a file of a case.
fn load<'a, R: Files>(rt: &R, alloc: Global, name: &'a str) -> Result<Vec<u8>, Missing<'a>> {
    match bytes_of(rt, alloc, name) {
        Ok(bytes) => Ok(bytes),
        Err(why) => Err(Missing { name, why }),
    }
}

/// The output that a case wants.
fn load_wanted<'a, R: Files>(
    rt: &R,
    alloc: Global,
    wanted: &'a Wanted,
) -> Result<Expected, Missing<'a>> {
    match wanted {
        Wanted::Sum(sum) => Ok(Expected::Sum(*sum)),
        Wanted::File(name) => match load(rt, alloc, name.as_str()) {
            Ok(bytes) => Ok(Expected::Bytes(bytes)),
            Err(missing) => Err(missing),
        },
    }
}

/// The files of a case.
fn load_case<'a, R: Files>(
    rt: &R,
    alloc: Global,
    case: &'a Case,
) -> Result<CaseBytes, Missing<'a>> {
    let program = match load(rt, alloc, case.program.as_str()) {
        Ok(bytes) => bytes,
        Err(missing) => return Err(missing),
    };
    let input = match load(rt, alloc, case.input.as_str()) {
        Ok(bytes) => bytes,
        Err(missing) => return Err(missing),
    };
    match load_wanted(rt, alloc, &case.wanted) {
        Ok(wanted) => Ok(CaseBytes {
            program,
            input,
            wanted,
        }),
        Err(missing) => Err(missing),
    }
}

/// What is told of a case whose files can't be had.
fn tell_missing(alloc: Global, missing: Missing<'_>) -> Result<Vec<u8>, Memory> {
    let mut told = Text::new(alloc);
    told.add(missing.name.as_bytes())?;
    match missing.why {
        NoBytes::TooLong => told.add(b" is too long")?,
        NoBytes::Failed => told.add(b" can't be read")?,
        NoBytes::Memory => return Err(Memory),
    }
    Ok(told.into_bytes())
}

/// The outcome and the status of a verdict. A run that found no memory, also for its output, could not be judged.
fn outcome_of(verdict: Verdict) -> (Outcome, Status) {
    match verdict {
        Verdict::Passed => (Outcome::Passed, Status::AllPassed),
        Verdict::Ended(6 | 7) => (Outcome::Broken, Status::NoMemory),
        _ => (Outcome::Failed, Status::Failed),
    }
}

/// What is there of the files of a case.
#[derive(Drop)]
enum Loaded {
    /// All of them.
    Ready(CaseBytes),
    /// Not all, and so what is told of the case.
    Broken(Vec<u8>),
}

/// A case with the bytes of its files.
#[derive(Drop)]
pub(crate) struct Prepared {
    title: Vec<u8>,
    words: Vec<String>,
    loaded: Loaded,
}

/// Which case it is: its line, its program and its input.
fn title_of(alloc: Global, numbered: &NumberedCase) -> Result<Vec<u8>, Memory> {
    let mut title = Text::new(alloc);
    title.number(u64::from(numbered.line))?;
    title.add(b": ")?;
    title.add(numbered.case.program.as_bytes())?;
    title.add(b" ")?;
    title.add(numbered.case.input.as_bytes())?;
    Ok(title.into_bytes())
}

/// Reads the files of a case.
pub(crate) fn prepare<R: Files>(
    rt: &R,
    alloc: Global,
    numbered: &NumberedCase,
) -> Result<Prepared, Memory> {
    let title = title_of(alloc, numbered)?;
    let words = words_with(alloc, &numbered.case.options)?;
    let loaded = match load_case(rt, alloc, &numbered.case) {
        Ok(bytes) => Loaded::Ready(bytes),
        Err(missing) => Loaded::Broken(tell_missing(alloc, missing)?),
    };
    Ok(Prepared {
        title,
        words,
        loaded,
    })
}

/// Runs a case over the bytes of its files, and judges it.
fn find<R: Threads + Sync>(
    rt: &R,
    alloc: Global,
    words: &[String],
    bytes: &CaseBytes,
) -> Result<Found, Memory> {
    let run = Run {
        words,
        program: &bytes.program,
        input: &bytes.input,
    };
    let judged = judge_bytes(rt, alloc, run.words, run.program, run.input, &bytes.wanted)?;
    let (outcome, status) = outcome_of(judged.verdict);
    let why = why_of(rt, alloc, &run, &judged, &bytes.wanted)?;
    Ok(Found {
        outcome,
        why,
        status,
    })
}

/// What is found of a case.
fn found_of<R: Threads + Sync>(
    rt: &R,
    alloc: Global,
    prepared: &Prepared,
) -> Result<Found, Memory> {
    match &prepared.loaded {
        Loaded::Ready(bytes) => find(rt, alloc, &prepared.words, bytes),
        Loaded::Broken(why) => Ok(Found {
            outcome: Outcome::Broken,
            why: Vec::from_slice(alloc, why)?,
            status: Status::ReadFault,
        }),
    }
}

/// Runs a case whose files were read, and judges it.
pub(crate) fn run_case<R: Threads + Sync>(
    rt: &R,
    alloc: Global,
    prepared: &Prepared,
) -> Result<CaseResult, Memory> {
    let title = Vec::from_slice(alloc, &prepared.title)?;
    let found = found_of(rt, alloc, prepared)?;
    Ok(CaseResult {
        row: Row {
            title,
            outcome: found.outcome,
            why: found.why,
        },
        status: found.status,
    })
}
