//! From the words of the call to what is told of each file.

use crate::completing::complete_text;
use crate::judged::Judged;
use crate::judging::{Named, report_on};
use crate::loading::{NoText, text_of};
use crate::manner::{Extent, Manner, Strictness};
use crate::options::{Request, option_of, tell_help, tell_no_format, tell_no_use, tell_version};
use crate::reports::{judged_of, of_no_text, of_note};
use crate::telling::{Told, tell, tell_all, told_by, told_of};
use crate::words::word_at;
use os_io::Memory;
use oscheck_reports::{Format, Note, Report};
use std::alloc::Global;
use std::io;
use std::io::Write;
use std::rt::Files;

/// What is done with each file.
#[derive(Clone, Copy, PartialEq, Eq)]
enum Way {
    Judge,
    Complete,
}

/// What the words before one asked for, and what was said of the files among them.
#[derive(Drop)]
struct WordsSoFar {
    way: Way,
    manner: Manner,
    format: Format,
    /// Whether a file was named.
    has_file: bool,
    worst: Judged,
    /// What is told of all files at once.
    reports: Vec<Report>,
}

/// Whether the next word is looked at: not once help or the version was told, or a word was refused.
#[derive(Clone, Copy, PartialEq, Eq)]
enum Next {
    GoOn,
    Stop,
}

/// What is found in a file.
fn report_of<R: Files>(
    rt: &R,
    alloc: Global,
    name: &str,
    manner: Manner,
) -> Result<Report, Memory> {
    match text_of(rt, alloc, name) {
        Ok(text) => report_on(alloc, Named { name, text: &text }, manner),
        Err(why) => of_no_text(alloc, name, why),
    }
}

/// What is told of a file that has no text.
fn told_of_no_text(alloc: Global, format: Format, name: &str, why: NoText) -> Result<Told, Memory> {
    told_by(alloc, format, &of_no_text(alloc, name, why)?)
}

/// What is told of a file.
fn told_of_file<R: Files>(
    rt: &R,
    alloc: Global,
    format: Format,
    name: &str,
    manner: Manner,
) -> Result<Told, Memory> {
    match text_of(rt, alloc, name) {
        Ok(text) => told_of(alloc, format, Named { name, text: &text }, manner),
        Err(why) => told_of_no_text(alloc, format, name, why),
    }
}

/// Writes a program that begins as the text of a file does, or tells why there is none.
fn complete<R: Files>(
    rt: &R,
    out: &mut impl io::Write,
    told: &mut impl io::Write,
    alloc: Global,
    name: &str,
) -> io::Result<Judged> {
    match text_of(rt, alloc, name) {
        Ok(text) => complete_text(out, told, alloc, Named { name, text: &text }),
        Err(why) => tell(told, name, told_of_no_text(alloc, Format::Text, name, why)),
    }
}

/// Keeps a report on a file until all files are told of: where memory was wanting, a report of that.
fn keep(
    reports: &mut Vec<Report>,
    alloc: Global,
    name: &str,
    report: Result<Report, Memory>,
) -> Result<Judged, Memory> {
    let report = match report {
        Ok(report) => report,
        Err(Memory) => of_note(alloc, name, Note::NoMemory)?,
    };
    let judged = judged_of(&report);
    reports.push(report)?;
    Ok(judged)
}

/// Keeps a report on a file, where memory can be had for that.
fn keep_or_fail(
    state: &mut WordsSoFar,
    alloc: Global,
    name: &str,
    report: Result<Report, Memory>,
) -> io::Result<Judged> {
    match keep(&mut state.reports, alloc, name, report) {
        Ok(judged) => Ok(judged),
        Err(Memory) => Err(io::ErrorKind::OutOfMemory.into()),
    }
}

/// Judges a file: tells of it, or keeps the report on it where all files are told of at once.
fn judge(rt: &HostRuntime, state: &mut WordsSoFar, name: &str) -> io::Result<Judged> {
    let alloc = rt.alloc();
    let WordsSoFar { format, manner, .. } = *state;
    if format == Format::Sarif {
        return keep_or_fail(state, alloc, name, report_of(rt, alloc, name, manner));
    }
    tell(
        &mut rt.stdout(),
        name,
        told_of_file(rt, alloc, format, name, manner),
    )
}

/// Judges a file, or completes it.
fn answer_name(rt: &HostRuntime, state: &mut WordsSoFar, name: &str) -> io::Result<Judged> {
    match state.way {
        Way::Judge => judge(rt, state, name),
        Way::Complete => complete(rt, &mut rt.stdout(), &mut rt.stderr(), rt.alloc(), name),
    }
}

/// The bytes of a word as they are told of a name that isn't text: escaped.
fn escaped(alloc: Global, word: &[u8]) -> Result<String, Memory> {
    let escaped = word.escape_ascii();
    Ok(format!(in alloc; "{escaped}")?)
}

/// What is told of a file whose name isn't text.
fn told_of_name(alloc: Global, format: Format, name: &str) -> Result<Told, Memory> {
    told_by(alloc, format, &of_note(alloc, name, Note::NoName)?)
}

/// Says of a file that it can't be opened: std takes text alone for a name. The name is told with its bytes escaped.
fn refuse_name(rt: &HostRuntime, state: &mut WordsSoFar, word: &[u8]) -> io::Result<Judged> {
    let alloc = rt.alloc();
    let Ok(name) = escaped(alloc, word) else {
        return Err(io::ErrorKind::OutOfMemory.into());
    };
    match (state.way, state.format) {
        (Way::Complete, _) => {
            tell(
                &mut rt.stderr(),
                &name,
                told_of_name(alloc, Format::Text, &name),
            )
        }
        (Way::Judge, Format::Sarif) => {
            keep_or_fail(state, alloc, &name, of_note(alloc, &name, Note::NoName))
        }
        (Way::Judge, format) => tell(&mut rt.stdout(), &name, told_of_name(alloc, format, &name)),
    }
}

/// Judges a file by the word that names it, or completes it.
fn answer_file(rt: &HostRuntime, state: &mut WordsSoFar, word: &[u8]) -> io::Result<Judged> {
    match str::from_utf8(word) {
        Ok(name) => answer_name(rt, state, name),
        Err(_) => refuse_name(rt, state, word),
    }
}

/// What a word asks for that stands before the files.
fn option_in(state: &WordsSoFar, word: &[u8]) -> Option<Request> {
    if state.has_file {
        return None;
    }
    match str::from_utf8(word) {
        Ok(word) => option_of(word),
        Err(_) => None,
    }
}

/// Goes on where the words so far go together, and else refuses them.
fn go_on(rt: &HostRuntime, state: &mut WordsSoFar) -> io::Result<Next> {
    if state.way == Way::Judge || state.format == Format::Text {
        return Ok(Next::GoOn);
    }
    tell_no_use(&mut rt.stderr())?;
    state.worst = Judged::Unjudged;
    Ok(Next::Stop)
}

/// Refuses a word that asks for no format.
fn refuse_format(rt: &HostRuntime, state: &mut WordsSoFar, word: &[u8]) -> io::Result<Next> {
    tell_no_format(&mut rt.stderr(), word)?;
    state.worst = Judged::Unjudged;
    Ok(Next::Stop)
}

/// Does what an option asks for.
fn take_option(
    rt: &HostRuntime,
    state: &mut WordsSoFar,
    option: Request,
    word: &[u8],
) -> io::Result<Next> {
    match option {
        Request::Complete => state.way = Way::Complete,
        Request::First => state.manner.extent = Extent::First,
        Request::All => state.manner.extent = Extent::All,
        Request::Werror => state.manner.strictness = Strictness::Strict,
        Request::Format(format) => state.format = format,
        Request::NoFormat => return refuse_format(rt, state, word),
        Request::Help => {
            tell_help(&mut rt.stdout())?;
            return Ok(Next::Stop);
        }
        Request::Version => {
            tell_version(&mut rt.stdout())?;
            return Ok(Next::Stop);
        }
    }
    go_on(rt, state)
}

/// Does what a word asks for.
fn take_word(rt: &HostRuntime, state: &mut WordsSoFar, word: &[u8]) -> io::Result<Next> {
    if let Some(option) = option_in(state, word) {
        return take_option(rt, state, option, word);
    }
    state.has_file = true;
    let judged = answer_file(rt, state, word)?;
    state.worst = state.worst.max(judged);
    Ok(Next::GoOn)
}

/// Tells what is told of all files at once, or how the program is used, where no file was named.
fn end(rt: &HostRuntime, state: &WordsSoFar) -> io::Result<Judged> {
    if !state.has_file {
        tell_help(&mut rt.stdout())?;
    } else if state.format == Format::Sarif {
        tell_all(&mut rt.stdout(), rt.alloc(), state.format, &state.reports)?;
    }
    Ok(state.worst)
}

/// Tells that memory ran out for a word of the call: not where SARIF is written, which nothing else may stand beside.
fn tell_no_words(rt: &HostRuntime, format: Format) -> io::Result<Judged> {
    if format == Format::Sarif {
        return Err(io::ErrorKind::OutOfMemory.into());
    }
    writeln!(rt.stdout(), "memory ran out")?;
    Ok(Judged::Unjudged)
}

/// Judges each file that the words name, or completes each, and goes on behind one that is refused or can't be judged.
pub(crate) fn answer_all(rt: &HostRuntime) -> io::Result<Judged> {
    let mut state = WordsSoFar {
        way: Way::Judge,
        manner: Manner {
            extent: Extent::Some,
            strictness: Strictness::Lenient,
        },
        format: Format::Text,
        has_file: false,
        worst: Judged::Accepted,
        reports: Vec::new(rt.alloc()),
    };
    for number in 1..usize::MAX {
        let word = match word_at(rt, rt.alloc(), number) {
            Ok(Some(word)) => word,
            Ok(None) => return end(rt, &state),
            Err(Memory) => return tell_no_words(rt, state.format),
        };
        if take_word(rt, &mut state, &word)? == Next::Stop {
            return Ok(state.worst);
        }
    }
    end(rt, &state)
}
