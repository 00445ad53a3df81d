//! What is told of the program itself.

use osrun_core_jobs::Status;
use std::io;

/// What `--version` tells: the version in the file VERSION of the repository.
const VERSION: &str = "osview 1.0.0";

/// What is told where the words ask for nothing, or for help.
const HELP: &str = "\
osview shows what a run of an OpenStream program came to.

    osview report PROGRAM INPUT   runs the program over the input, and tells in sentences what became of it
    osview stream PROGRAM INPUT NAME [FROM [COUNT]]
                                  runs it too, and shows the elements of the stream NAME, from position FROM on, COUNT at most
    osview steps PROGRAM INPUT    runs it too, and tells how many steps main and its tasks take, how many turns of their budgets,
                                  and how much faster more workers can make the tasks
    osview graph PROGRAM INPUT [--activations A..B]
                                  runs it too, and writes the graph of tasks and streams as Graphviz text, or that of the
                                  activations A to B - 1
    osview explain PROGRAM INPUT ACTIVATION
                                  runs it too, and tells why the activation never ran, a sentence for each of those that wait for
                                  one another; or what became of it
    --workers N, --budget N, --control N
                                  by how many workers, with how many turns for each task and for main, as osrun run takes them
    osview --help                 tells this
    osview --version              tells the version

The statuses are those of osrun run: 0 where all is done, 1 where not all is, 2 for other words and for a NAME that no stream of
the program has, and 3 to 7 where there is no run. Those of osview explain are 0 where the activation waits for what never comes,
and 1 where it ended or there is none of that number.
";

/// This status, or that of a failed write where the text couldn't be told.
fn status_of(told: io::Result<()>, status: Status) -> Status {
    match told {
        Ok(()) => status,
        Err(_) => Status::WriteFault,
    }
}

/// Tells how the program is used.
pub(crate) fn tell_help(out: &mut impl io::Write) -> Status {
    status_of(write!(out, "{HELP}"), Status::AllDone)
}

/// Tells the version.
pub(crate) fn tell_version(out: &mut impl io::Write) -> Status {
    status_of(writeln!(out, "{VERSION}"), Status::AllDone)
}

/// Tells how the program is used, where the words ask for nothing.
pub(crate) fn tell_usage(told: &mut impl io::Write) -> Status {
    let _ = write!(told, "{HELP}");
    Status::BadWords
}
