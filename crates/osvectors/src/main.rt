//! The program `osvectors`: runs the cases of a file, and tells which of them don't have the wanted output.
//!
//! `osvectors FILE` reads the lines of FILE, each of which is a case or says nothing (`osvectors_cases`). Where a line is no case nothing is
//! run. Else each case's program is run over its input in memory by the command `osrun run`, and judged by its status and its output
//! (`judging::judge_bytes`); several are run side by side, and told in the order of their lines. Of an output that isn't the wanted one
//! the first byte is told that differs, with the line that `osview stream` has of it: the activation that wrote it, and its task's line.
#![tactic(auto)]

ghost use Rattle.std.specs.Prelude.{◌≤◌, length};
ghost use Rattle.os_io.specs.Limits.{read_limit};

mod blame;
mod case_run;
mod judging;
mod loading;
mod reporting;
mod request;
mod running;
mod status;
mod telling;
mod why;

use blame::are_of_run;
use case_run::CaseResult;
use judging::words_with;
use loading::bytes_of;
use os_io::{Memory, arguments, stand_in};
use osvectors_cases::{CasesError, NumberedCase, Row, read_cases};
use reporting::{report_of, rows_of, status_of, told_of};
use request::{Asked, Request, request_of};
use running::run_all;
use status::Status;
use std::alloc::Global;
use std::io::{IsTerminal, Write};
use std::process::ExitCode;
use std::rt::Files;
use std::thread::Threads;
use std::{fs, io};
use telling::{
    tell_help, tell_line, tell_no_bytes, tell_no_memory, tell_unwritten, tell_usage, tell_version,
};

/// The first case whose options aren't those of a run, by the number of its line.
fn first_refused(alloc: Global, cases: &[NumberedCase]) -> Result<Option<u32>, Memory> {
    for numbered in cases {
        let words = words_with(alloc, &numbered.case.options)?;
        if !are_of_run(alloc, &words)? {
            return Ok(Some(numbered.line));
        }
    }
    Ok(None)
}

/// The lines before that with a number, counted from 1.
fn lines_before(text: &[u8], line: u32) -> &[u8]
    ensures { length result.now ≤ length text.now }
{
    let mut number = 1u32;
    for (place, byte) in text.iter().enumerate() {
        if number >= line {
            return &text[..place];
        }
        if *byte == b'\n' {
            number = number.saturating_add(1);
        }
    }
    text
}

/// The first line that is no case, where that with a number isn't understood: one before it may have other options than a run.
fn first_wrong(alloc: Global, text: &[u8], line: u32) -> Result<u32, Memory>
    requires { length text.now ≤ read_limit }
{
    match read_cases(alloc, lines_before(text, line)) {
        Ok(cases) => Ok(first_refused(alloc, &cases)?.unwrap_or(line)),
        Err(CasesError::Line(earlier)) => Ok(earlier),
        Err(CasesError::Memory) => Err(Memory),
    }
}

/// Tells the first line that is no case.
fn tell_first_wrong(
    alloc: Global,
    asked: &Asked<'_>,
    text: &[u8],
    line: u32,
    told: &mut impl Write,
) -> Status
    requires { length text.now ≤ read_limit }
{
    match first_wrong(alloc, text, line) {
        Ok(first) => tell_line(told, asked.file, first),
        Err(Memory) => tell_no_memory(told),
    }
}

/// Writes bytes to standard output.
fn write_all(out: &mut impl Write, bytes: &[u8]) -> io::Result<()> {
    out.write_all(bytes)?;
    out.flush()
}

/// Writes the report, or tells that it can't be written.
fn write_report<R: Files>(
    rt: &R,
    alloc: Global,
    asked: &Asked<'_>,
    rows: &[Row],
    told: &mut impl Write,
) -> Result<Status, Memory> {
    let Some(report) = &asked.report else {
        return Ok(Status::AllPassed);
    };
    let text = report_of(alloc, report, asked.file.as_bytes(), rows)?;
    match fs::write(rt, report.name, text.as_slice()) {
        Ok(()) => Ok(Status::AllPassed),
        Err(_) => Ok(tell_unwritten(told, report.name)),
    }
}

/// Tells what came of the cases, and writes the report that is asked for.
fn deliver<R: Files>(
    rt: &R,
    alloc: Global,
    asked: &Asked<'_>,
    results: Vec<CaseResult>,
    out: &mut impl Write,
    told: &mut impl Write,
) -> Result<Status, Memory> {
    let judged = status_of(&results);
    let rows = rows_of(alloc, results)?;
    let lines = told_of(alloc, asked.file.as_bytes(), &rows)?;
    let reported = write_report(rt, alloc, asked, &rows, told)?;
    let written = match write_all(out, &lines) {
        Ok(()) => Status::AllPassed,
        Err(_) => tell_unwritten(told, "standard output"),
    };
    Ok(judged.and(reported).and(written))
}

/// Runs cases, and tells what came of them.
fn run_cases<R: Threads + Files + Sync>(
    rt: &R,
    alloc: Global,
    asked: &Asked<'_>,
    cases: &[NumberedCase],
    out: &mut impl Write,
    told: &mut (impl Write + IsTerminal),
) -> Result<Status, Memory>
    requires { 1 ≤ asked.now.jobs }
{
    if let Some(line) = first_refused(alloc, cases)? {
        return Ok(tell_line(told, asked.file, line));
    }
    let results = run_all(rt, alloc, cases, asked.jobs, told)?;
    deliver(rt, alloc, asked, results, out, told)
}

/// Runs the cases of a file, or tells why it doesn't.
fn answer<R: Threads + Files + Sync>(
    rt: &R,
    alloc: Global,
    asked: &Asked<'_>,
    out: &mut impl Write,
    told: &mut (impl Write + IsTerminal),
) -> Status
    requires { 1 ≤ asked.now.jobs }
{
    let text = match bytes_of(rt, alloc, asked.file) {
        Ok(text) => text,
        Err(why) => return tell_no_bytes(told, asked.file, why),
    };
    match read_cases(alloc, &text) {
        Ok(cases) => match run_cases(rt, alloc, asked, &cases, out, told) {
            Ok(status) => status,
            Err(Memory) => tell_no_memory(told),
        },
        Err(CasesError::Line(line)) => tell_first_wrong(alloc, asked, &text, line, told),
        Err(CasesError::Memory) => tell_no_memory(told),
    }
}

fn main(rt: HostRuntime) -> ExitCode {
    let _stand_ins = [stand_in(&rt), stand_in(&rt), stand_in(&rt)];
    let words = match arguments(&rt) {
        Ok(words) => words,
        Err(error) if error.kind() == io::ErrorKind::OutOfMemory => return ExitCode::from(
            Status::NoMemory.code(),
        ),
        // a word that isn't text asks for nothing
        Err(_) => Vec::new(rt.alloc()),
    };
    let mut out = rt.stdout();
    let mut told = rt.stderr();
    let status = match request_of(&words) {
        None => tell_usage(&mut told),
        Some(Request::Help) => tell_help(&mut out),
        Some(Request::Version) => tell_version(&mut out),
        Some(Request::Run(asked)) => answer(&rt, rt.alloc(), &asked, &mut out, &mut told),
    };
    ExitCode::from(status.code())
}
