//! The program `oscheck`: judges texts as a compiler does. Of each file it tells that it is accepted, or the line and the column of
//! what is wrong, in a sentence that names it, and below it the line of the text with a mark; of a text that is no program
//! what could stand there, or what C has there and this language hasn't. Of a program it tells each rule that it violates, and what it
//! is warned of where it violates none.
//!
//! What was found in a file is a `Report` of `oscheck_reports`, whatever the format: `report_on` makes it, and `form` writes it for people,
//! as lines of gcc, or as SARIF.
//!
//! With the word `--complete` before the files it writes a program for each of them: the text itself where its tokens mean
//! one, and else one that begins as the text does, up to the token with which no program goes on.
#![tactic(auto)]

mod answering;
mod completing;
mod completion;
mod errors;
mod expected;
mod found;
mod judged;
mod judging;
mod listing;
mod loading;
mod manner;
mod open_part;
mod options;
mod reports;
mod syntax_error;
mod telling;
mod warning;
mod words;

use answering::answer_all;
use judged::Judged;
use os_io::stand_in;
use std::io;
use std::process::ExitCode;

/// Tells that memory ran out where that is why the files weren't told of.
fn tell_failure(told: &mut impl io::Write, kind: io::ErrorKind) {
    if kind == io::ErrorKind::OutOfMemory {
        let _ = writeln!(told, "memory ran out");
    }
}

fn main(rt: HostRuntime) -> ExitCode {
    let _stand_ins = [stand_in(&rt), stand_in(&rt), stand_in(&rt)];
    match answer_all(&rt) {
        Ok(judged) => ExitCode::from(judged.status()),
        Err(error) => {
            tell_failure(&mut rt.stderr(), error.kind());
            ExitCode::from(Judged::Unjudged.status())
        }
    }
}
