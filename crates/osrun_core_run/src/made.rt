ghost use Rattle.std.specs.Prelude.{◌≡◌, All, IfOk};
ghost use Rattle.collector.specs.Status.{status as status_of};
ghost use Rattle.collector.specs.Written.{IsByteIfThere, written};
ghost use Rattle.osrun_core_jobs.specs.Status.{status_code};

use collector::{output_bytes, run_status};
use flow_core_laws::{ControlEnd, Ends};
use os_io::Memory;
use osrun_core_jobs::Status;
use std::alloc::Global;
use stream_match::Layout;

/// A run that was made: the bytes for the output, and what the report tells.
#[derive(Debug, Drop)]
pub struct MadeRun {
    /// The bytes for the output, at most 4,194,304.
    pub output: Vec<u8>,
    /// The positions of the activations.
    pub layout: Layout,
    /// How each activation ended, and the elements of the output.
    pub ends: Ends,
    /// How the control program ended.
    pub control: ControlEnd,
}

impl MadeRun {
    /// The run that came to these ends: the bytes of its output are collected.
    pub(crate) fn of(
        alloc: Global,
        layout: Layout,
        ends: Ends,
        control: ControlEnd,
    ) -> Result<MadeRun, Memory>
        requires bytes { All IsByteIfThere ends.output }
        ensures output { IfOk result (λ run. run.output.items ≡ written ends.output) }
        ensures layout { IfOk result (λ run. run.layout ≡ layout) }
        ensures ends { IfOk result (λ run. run.ends ≡ ends) }
        ensures control { IfOk result (λ run. run.control ≡ control) }
    {
        let output = output_bytes(alloc, &ends)?;
        Ok(MadeRun {
            output,
            layout,
            ends,
            control,
        })
    }

    /// The status of the run: whether every activation and the control program are Done.
    pub fn status(&self) -> Status
        ensures { status_code result ≡ status_of self.now.ends.ends self.now.control }
    {
        Status::of_run(run_status(&self.ends, self.control))
    }
}
