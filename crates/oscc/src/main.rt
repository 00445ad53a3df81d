//! The program `oscc`: writes a program of the language as C.
//!
//! `oscc FILE` reads the text of FILE and writes to standard output the C that `oscc_text` makes of its code, which a C compiler makes a
//! program of, with the runtime in `runtime/`; `oscc --object FILE` takes the code of an object. Where that can't be done nothing is written
//! there, and one line on standard error says why.
#![tactic(auto)]

mod loading;
mod request;
mod status;
mod telling;
mod translating;

use os_io::arguments;
use request::{Request, request_of, tell_help, tell_version};
use status::Status;
use std::io;
use std::process::ExitCode;
use telling::{tell_no_memory, tell_usage};
use translating::{translate, translate_code};

/// Tells something of the program.
fn told(outcome: io::Result<()>) -> Status {
    match outcome {
        Ok(()) => Status::Done,
        Err(_) => Status::WriteFault,
    }
}

/// Does what the words ask for.
fn answer_words(rt: &HostRuntime, words: &[String]) -> Status {
    match request_of(words) {
        None => tell_usage(&mut rt.stderr()),
        Some(Request::Help) => told(tell_help(&mut rt.stdout())),
        Some(Request::Version) => told(tell_version(&mut rt.stdout())),
        Some(Request::Text(name)) => translate(rt, name),
        Some(Request::Object(name)) => translate_code(rt, name),
    }
}

fn main(rt: HostRuntime) -> ExitCode {
    let status = match arguments(&rt) {
        Ok(words) => answer_words(&rt, &words),
        Err(error) if error.kind() == io::ErrorKind::OutOfMemory => tell_no_memory(
            &mut rt.stderr(),
        ),
        Err(_) => tell_usage(&mut rt.stderr()),
    };
    ExitCode::from(status.code())
}
