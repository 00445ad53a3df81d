//! The program `kernel_runs`: runs three kernels over a file, each by several numbers of workers, by the command's own call.
//! Its stored output shows that what they write is the same with each number.
#![tactic(auto)]

use os_io::{HostFiles, HostSink};
use osrun_core::{NoGate, run_words};
use osrun_core_jobs::Status;
use std::alloc::{AllocError, Global};
use std::process::ExitCode;

/// The words of a run of a program over `in.bin`.
fn words(alloc: Global, program: &str, workers: &str) -> Result<Vec<String>, AllocError> {
    let mut words = Vec::new(alloc);
    for word in ["run", program, "in.bin", "--workers", workers] {
        words.push(String::from_str(alloc, word)?)?;
    }
    Ok(words)
}

/// The status is the greatest of the runs'.
fn main(rt: HostRuntime) -> ExitCode {
    let mut worst = 0;
    for program in ["invert.c", "smooth.c", "broadcast.c"] {
        for workers in ["1", "3", "64"] {
            let Ok(words) = words(rt.alloc(), program, workers) else {
                return ExitCode::from(Status::NoMemory.code());
            };
            let status = run_words(
                &rt,
                rt.alloc(),
                &words,
                &mut HostFiles::new(&rt),
                &mut HostSink::new(rt.stdout()),
                &mut HostSink::new(rt.stderr()),
                &NoGate,
            );
            worst = worst.max(status);
        }
    }
    ExitCode::from(worst)
}
