//! The program `osrun`: the command, and the server of jobs, over the files and streams of the host.
#![tactic(auto)]

use os_io::{HostFiles, HostSink, arguments, stand_in};
use os_serve::serve_words;
use osrun_core::NoGate;
use osrun_core_jobs::Status;
use std::io;
use std::process::ExitCode;

fn main(rt: HostRuntime) -> ExitCode {
    let _stand_ins = [stand_in(&rt), stand_in(&rt), stand_in(&rt)];
    let words = match arguments(&rt) {
        Ok(words) => words,
        Err(error) if error.kind() == io::ErrorKind::OutOfMemory => return ExitCode::from(
            Status::NoMemory.code(),
        ),
        // a word that isn't text makes the command bad
        Err(_) => Vec::new(rt.alloc()),
    };
    let mut jobs = HostFiles::new(&rt);
    let mut files = HostFiles::new(&rt);
    let mut out = HostSink::new(rt.stdout());
    let mut report = HostSink::new(rt.stderr());
    let status = serve_words(
        &rt,
        rt.alloc(),
        &words,
        &mut jobs,
        &mut files,
        &mut out,
        &mut report,
        &NoGate,
    );
    ExitCode::from(status)
}
