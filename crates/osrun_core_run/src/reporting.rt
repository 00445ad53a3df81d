use crate::made::MadeRun;
use collector::report_lines;
use os_io::{Sink, WriteError};
use osrun_core_jobs::Lines;

/// The report of a run.
impl Lines for MadeRun {
    ghost use Rattle.osrun_core_run.specs.Reported.{IsReportOf};

    ghost tells = { λ run text. IsReportOf run text };

    fn write_to<S: Sink>(&self, sink: &mut S) -> Result<(), WriteError> {
        report_lines(&self.layout, &self.ends, &self.control, sink)
    }
}
