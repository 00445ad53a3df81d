//! The program `ospack`: packs the slots that standard input has, or unpacks what was packed of some.
//!
//! `ospack pack SLOT` takes slots of SLOT bytes and writes the length and the bytes of each; `ospack unpack SLOT` takes what was
//! packed and writes slots again, with zeros behind their bytes. SLOT counts the two bytes of length too: it is 2 to 65,536.
//! Where not all goes well, one line on standard error says why, and what stands before a slot that is refused was written.
//! `ospack --help` tells how it is used, and `ospack --version` its version.
#![tactic(auto)]

ghost use Rattle.std.specs.Prelude.{IsTrue};
ghost use Rattle.ospack.specs.Words.{IsWithin};

mod input;
mod request;
mod status;
mod telling;

use input::Input;
use os_io::{Files, HostSink, Sink, arguments, stand_in};
use ospack_slots::{PackError, pack, unpack};
use request::{Conversion, Request, Way, request_of};
use status::Status;
use std::alloc::Global;
use std::io;
use std::process::ExitCode;
use telling::{tell, tell_help, tell_no_memory, tell_usage, tell_version};

/// What standard input is called, which is read under any name.
const INPUT: &str = "standard input";

/// Packs or unpacks standard input.
fn answer<F: Files, S: Sink>(
    alloc: Global,
    files: &mut F,
    out: &mut S,
    asked: &Conversion,
) -> Result<(), PackError>
    requires within { IsWithin asked.now }
    requires may { IsTrue (F.may files.old (F.opens files.old) INPUT.now) }
{
    files.open(INPUT)?;
    match asked.way {
        Way::Pack => pack(alloc, files, out, asked.size),
        Way::Unpack => unpack(alloc, files, out, asked.size),
    }
}

/// Packs or unpacks standard input, and tells why where that isn't done.
fn answer_conversion(rt: &HostRuntime, asked: &Conversion) -> Status
    requires { IsWithin asked.now }
{
    let mut files = Input::new(rt.stdin());
    let mut out = HostSink::new(rt.stdout());
    match answer(rt.alloc(), &mut files, &mut out, asked) {
        Ok(()) => Status::AllDone,
        Err(error) => tell(&mut rt.stderr(), error),
    }
}

/// Does what the words ask for, and tells why where that isn't done.
fn answer_words(rt: &HostRuntime, words: &[String]) -> Status {
    match request_of(words) {
        None => tell_usage(&mut rt.stderr()),
        Some(Request::Convert(asked)) => answer_conversion(rt, &asked),
        Some(Request::Help) => tell_help(&mut rt.stdout()),
        Some(Request::Version) => tell_version(&mut rt.stdout()),
    }
}

fn main(rt: HostRuntime) -> ExitCode {
    let _stand_ins = [stand_in(&rt), stand_in(&rt), stand_in(&rt)];
    let status = match arguments(&rt) {
        Ok(words) => answer_words(&rt, &words),
        Err(error) if error.kind() == io::ErrorKind::OutOfMemory => tell_no_memory(
            &mut rt.stderr(),
        ),
        Err(_) => tell_usage(&mut rt.stderr()),
    };
    ExitCode::from(status.code())
}
