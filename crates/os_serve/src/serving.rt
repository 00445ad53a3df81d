ghost use Rattle.std.specs.Prelude.{IsTrue};
ghost use Rattle.osrun_core_jobs.specs.Status.{status_code};
ghost use Rattle.os_serve.specs.Command.{MayServe};
ghost use Rattle.os_serve.specs.Commands.{IsReplyTo};
ghost use Rattle.os_serve_answers.specs.Serving.{Serves};

use crate::answering::answer_all;
use os_io::{Files, Sink};
use os_serve_answers::end;
use os_serve_jobs::Reading;
use osrun_core::Gate;
use osrun_core_jobs::Status;
use std::alloc::Global;
use std::thread::Threads;

/// Serves the jobs of the file with a name.
pub(crate) fn serve<R: Threads + Sync, J: Files + Send, F: Files + Send, O: Sink, E: Sink, G: Gate>(
    rt: &R,
    alloc: Global,
    name: &str,
    jobs: &mut J,
    files: &mut F,
    out: &mut O,
    report: &mut E,
    gate: &G,
) -> Status
    requires jobs { IsTrue (J.may jobs.old (J.opens jobs.old) name.now) }
    requires files { MayServe (J.holds jobs.old name.now) (F.may files.old) }
    ensures { Serves J.Files jobs.old jobs.new (IsReplyTo F.Files) files.old files.new O.Sink out.old out.new E.Sink report.old report.new
        name.now (status_code result) }
{
    let mut reading = Reading::new(alloc);
    match answer_all(rt, alloc, name, jobs, &mut reading, files, out, gate) {
        Ok(()) => end(reading.source, report),
        Err(stop) => stop.status(),
    }
}
