ghost use Rattle.std.specs.Prelude.{◌≡◌, slice_index_or};
ghost use Rattle.osview_graph.specs.Drawing.{run_of};
ghost use Rattle.osview_graph.specs.DrawnRun.{end_at, task_at};

use flow_core_laws::{Activation, TaskEnd};
use osview_sentences::StreamName;
use stream_match_layouts::Layout;

/// The run whose graph is drawn.
#[derive(Clone, Copy)]
pub struct Drawn<'a> {
    /// The text of its program.
    pub text: &'a [u8],
    /// The names of its streams, by where they stand in the text.
    pub names: &'a [StreamName],
    /// The line of each task's pragma.
    pub lines: &'a [u32],
    /// How many streams the program has, the input and the output among them.
    pub streams: u32,
    /// The activations that `main` created.
    pub activations: &'a [Activation],
    /// Which positions of the streams they read and write.
    pub layout: &'a Layout,
    /// How each of them ended; none where it is starved.
    pub ends: &'a [Option<TaskEnd>],
}

/// Which graph of a run is drawn.
#[derive(Clone, Copy, Debug)]
pub enum GraphChoice {
    /// The graph of its tasks and streams.
    Streams,
    /// The graph of its activations from number `first` on to the one before `end`, as far as there are any.
    Activations { first: u64, end: u64 },
}

impl Drawn<'_> {
    /// The task of an activation.
    pub(crate) fn task_at(&self, activation: u64) -> u32
        ensures { result ≡ task_at (run_of self.now) activation }
    {
        match self.activations.get(activation as usize) {
            Some(activation) => activation.site,
            None => 0,
        }
    }

    /// How an activation ended, if it did.
    pub(crate) fn end_at(&self, activation: u64) -> Option<TaskEnd>
        ensures { result ≡ end_at (run_of self.now) activation }
    {
        match self.ends.get(activation as usize) {
            Some(end) => *end,
            None => None,
        }
    }

    /// The line of a task's pragma.
    pub(crate) fn line_at(&self, task: u64) -> u32
        ensures { result ≡ slice_index_or self.now.lines.now task 0 }
    {
        match self.lines.get(task as usize) {
            Some(line) => *line,
            None => 0,
        }
    }
}
