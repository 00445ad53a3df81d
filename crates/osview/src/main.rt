//! The program `osview`: shows who wrote a program what a run of it came to, over the files and streams of the host.
//!
//! `osview report PROGRAM INPUT` runs the program over the input as `osrun run` does, and writes in sentences what became of its
//! activations: `answer_report`'s answer. `osview stream PROGRAM INPUT NAME` writes the elements of a stream: `answer_stream`'s.
//! `osview steps PROGRAM INPUT` writes how many steps and turns `main` and its tasks take: `answer_steps`'s.
//! `osview graph PROGRAM INPUT` writes a graph of the run: `answer_graph`'s. `osview explain PROGRAM INPUT ACTIVATION` writes why an
//! activation never ran: `answer_explain`'s.
#![tactic(auto)]

mod options;
mod request;
mod telling;

use os_io::{HostFiles, HostSink, arguments, stand_in};
use osrun_core_jobs::Status;
use osview_answer::{answer_explain, answer_graph, answer_report, answer_steps, answer_stream};
use request::{Request, request_of};
use std::io;
use std::process::ExitCode;
use task_workers::NoGate;
use telling::{tell_help, tell_usage, tell_version};

fn main(rt: HostRuntime) -> ExitCode {
    let _stand_ins = [stand_in(&rt), stand_in(&rt), stand_in(&rt)];
    let words = match arguments(&rt) {
        Ok(words) => words,
        Err(error) if error.kind() == io::ErrorKind::OutOfMemory => return ExitCode::from(
            Status::NoMemory.code(),
        ),
        Err(_) => Vec::new(rt.alloc()),
    };
    let mut files = HostFiles::new(&rt);
    let mut out = HostSink::new(rt.stdout());
    let mut told = HostSink::new(rt.stderr());
    let status = match request_of(&words) {
        Some(Request::Report(job)) => answer_report(
            &rt,
            rt.alloc(),
            &job,
            &mut files,
            &mut out,
            &mut told,
            &NoGate,
        ),
        Some(Request::Stream(job)) => answer_stream(
            &rt,
            rt.alloc(),
            &job,
            &mut files,
            &mut out,
            &mut told,
            &NoGate,
        ),
        Some(Request::Steps(job)) => answer_steps(
            &rt,
            rt.alloc(),
            &job,
            &mut files,
            &mut out,
            &mut told,
            &NoGate,
        ),
        Some(Request::Graph(job)) => answer_graph(
            &rt,
            rt.alloc(),
            &job,
            &mut files,
            &mut out,
            &mut told,
            &NoGate,
        ),
        Some(Request::Explain(job)) => answer_explain(
            &rt,
            rt.alloc(),
            &job,
            &mut files,
            &mut out,
            &mut told,
            &NoGate,
        ),
        Some(Request::Help) => tell_help(&mut rt.stdout()),
        Some(Request::Version) => tell_version(&mut rt.stdout()),
        None => tell_usage(&mut rt.stderr()),
    };
    ExitCode::from(status.code())
}
