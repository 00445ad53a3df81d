ghost use Rattle.std.specs.Prelude.{◌++◌, codes};
ghost use Rattle.std.specs.Fmt.{decimal};
ghost use Rattle.collector.specs.Buffering.{GoesOn};
ghost use Rattle.os_io.specs.Lines.{ended_line};
ghost use Rattle.collector.specs.Report.{control_line, end_line, output_line, producer_text, starved_line};

use crate::line_buffer::LineBuffer;
use crate::missing::Missing;
use flow_core_laws::{ControlEnd, TaskEnd};
use os_io::{Sink, WriteError};

impl LineBuffer {
    /// Adds the line of a starved activation.
    pub(crate) fn starved<S: Sink>(
        &mut self,
        sink: &mut S,
        frame: u32,
        missing: Missing,
    ) -> Result<(), WriteError>
        ensures { GoesOn S.Sink sink.old sink.new self.old self.new (starved_line frame missing) result }
    {
        self.field(sink, b"starved ", frame as u64)?;
        self.field(sink, b" stream ", missing.stream as u64)?;
        self.field(sink, b" position ", missing.position)?;
        self.text(sink, b" producer ")?;
        self.producer(sink, missing.producer)?;
        self.text(sink, b"\n")
    }

    /// Adds the producer of a missing element, which is starved too.
    fn producer<S: Sink>(&mut self, sink: &mut S, producer: Option<u32>) -> Result<(), WriteError>
        ensures { GoesOn S.Sink sink.old sink.new self.old self.new (producer_text producer) result }
    {
        match producer {
            Some(frame) => {
                self.number(sink, frame as u64)?;
                self.text(sink, b" starved")
            }
            None => self.text(sink, b"none"),
        }
    }

    /// Adds the line of an activation with an end; one that is Done has none.
    pub(crate) fn ended<S: Sink>(
        &mut self,
        sink: &mut S,
        frame: u32,
        end: TaskEnd,
    ) -> Result<(), WriteError>
        ensures { GoesOn S.Sink sink.old sink.new self.old self.new (end_line frame end) result }
    {
        match end {
            TaskEnd::Done => Ok(()),
            TaskEnd::Trapped { code, line } => {
                self.field(sink, b"trapped ", frame as u64)?;
                self.trap(sink, code, line)
            }
            TaskEnd::OverBudget => {
                self.field(sink, b"over-budget ", frame as u64)?;
                self.text(sink, b"\n")
            }
            TaskEnd::Poisoned { root } => self.poisoned(sink, frame, root),
        }
    }

    /// Adds the line of an activation that was poisoned.
    fn poisoned<S: Sink>(&mut self, sink: &mut S, frame: u32, root: u32) -> Result<(), WriteError>
        ensures { GoesOn S.Sink sink.old sink.new self.old self.new (end_line frame (TaskEnd.Poisoned root)) result }
    {
        self.field(sink, b"poisoned ", frame as u64)?;
        self.field(sink, b" by ", root as u64)?;
        self.text(sink, b"\n")
    }

    /// Adds where a trap was hit, and ends the line.
    fn trap<S: Sink>(&mut self, sink: &mut S, code: u8, line: u32) -> Result<(), WriteError>
        ensures { GoesOn S.Sink sink.old sink.new self.old self.new (ended_line (codes " code " ++ decimal code ++ codes " line " ++ decimal line)) result }
    {
        self.field(sink, b" code ", code as u64)?;
        self.field(sink, b" line ", line as u64)?;
        self.text(sink, b"\n")
    }

    /// Adds the line of the control program.
    pub(crate) fn control<S: Sink>(
        &mut self,
        sink: &mut S,
        control: &ControlEnd,
    ) -> Result<(), WriteError>
        ensures { GoesOn S.Sink sink.old sink.new self.old self.new (control_line control.now) result }
    {
        match *control {
            ControlEnd::Done => self.text(sink, b"control done\n"),
            ControlEnd::Trapped { code, line } => {
                self.text(sink, b"control trapped")?;
                self.trap(sink, code, line)
            }
            ControlEnd::OverBudget => self.text(sink, b"control over-budget\n"),
            ControlEnd::Limit(limit) => {
                self.field(sink, b"control limit ", limit as u64)?;
                self.text(sink, b"\n")
            }
        }
    }

    /// Adds the line of the output.
    pub(crate) fn output<S: Sink>(
        &mut self,
        sink: &mut S,
        count: u64,
        claimed: u64,
    ) -> Result<(), WriteError>
        ensures { GoesOn S.Sink sink.old sink.new self.old self.new (output_line count claimed) result }
    {
        self.field(sink, b"output ", count)?;
        self.field(sink, b" of ", claimed)?;
        self.text(sink, b"\n")
    }
}
