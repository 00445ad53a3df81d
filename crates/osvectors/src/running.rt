//! All cases, several side by side.

ghost use Rattle.std.specs.Prelude.{◌≤◌};

use crate::case_run::{CaseResult, Prepared, prepare, run_case};
use os_io::Memory;
use osvectors_cases::NumberedCase;
use std::alloc::Global;
use std::io::{IsTerminal, Write};
use std::rt::Files;
use std::thread::{Threads, map_chunks};

/// How many cases each of those that run side by side has in one turn; behind a turn the progress is told.
const TURN: usize = 32;

/// Cases with the bytes of their files.
fn prepare_all<R: Files>(
    rt: &R,
    alloc: Global,
    cases: &[NumberedCase],
) -> Result<Vec<Prepared>, Memory> {
    let mut prepared = Vec::new(alloc);
    for case in cases {
        prepared.push(prepare(rt, alloc, case)?)?;
    }
    Ok(prepared)
}

/// The results of some cases, in their order.
fn run_part<R: Threads + Sync>(
    rt: &R,
    alloc: Global,
    cases: &[Prepared],
) -> Result<Vec<CaseResult>, Memory> {
    let mut results = Vec::new(alloc);
    for case in cases {
        results.push(run_case(rt, alloc, case)?)?;
    }
    Ok(results)
}

/// Adds the results of parts behind others, in their order.
fn add_parts(
    parts: Vec<Result<Vec<CaseResult>, Memory>>,
    results: &mut Vec<CaseResult>,
) -> Result<(), Memory> {
    for part in parts {
        for result in part? {
            results.push(result)?;
        }
    }
    Ok(())
}

/// Runs cases, as many side by side as there are jobs, and adds their results.
fn run_turn<R: Threads + Sync>(
    rt: &R,
    alloc: Global,
    cases: &[Prepared],
    jobs: u32,
    results: &mut Vec<CaseResult>,
) -> Result<(), Memory>
    requires { 1 ≤ jobs }
{
    let size = cases.len().div_ceil(jobs as usize).max(1);
    let part = |_: usize, part: &[Prepared]| run_part(rt, alloc, part);
    let parts = map_chunks(rt, alloc, cases, size, &part)?;
    add_parts(parts, results)
}

/// Tells on a terminal how many cases were run.
fn tell_progress(told: &mut (impl Write + IsTerminal), done: usize, all: usize) {
    if told.is_terminal() {
        let _ = write!(told, "\r{done} of {all}");
    }
}

/// Runs all cases, and gives their results in their order.
pub(crate) fn run_all<R: Threads + Files + Sync>(
    rt: &R,
    alloc: Global,
    cases: &[NumberedCase],
    jobs: u32,
    told: &mut (impl Write + IsTerminal),
) -> Result<Vec<CaseResult>, Memory>
    requires { 1 ≤ jobs }
{
    let mut results = Vec::new(alloc);
    let turn = TURN * (jobs.min(64) as usize);
    for cases_of_turn in cases.chunks(turn) {
        let prepared = prepare_all(rt, alloc, cases_of_turn)?;
        run_turn(rt, alloc, &prepared, jobs, &mut results)?;
        tell_progress(told, results.len(), cases.len());
    }
    if told.is_terminal() {
        let _ = write!(told, "\r\x1b[K");
    }
    Ok(results)
}
