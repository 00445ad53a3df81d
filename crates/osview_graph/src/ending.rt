ghost use Rattle.std.specs.Prelude.{◌≡◌};
ghost use Rattle.osview_graph.specs.Drawing.{is_so};
ghost use Rattle.osview_graph.specs.DrawnRun.{end_word, has_run};

use collector::has_done;
use flow_core_laws::TaskEnd;

/// Which activations are counted, by how they ended.
#[derive(Clone, Copy, Debug)]
pub(crate) enum Ending {
    /// All of them, starved ones included.
    Any,
    Done,
    Trapped,
    OverBudget,
    Poisoned,
    /// Those that have no end, since an element that they read never comes.
    Starved,
}

impl Ending {
    /// Whether an activation with this end, or none, is counted.
    pub(crate) fn is(self, end: Option<TaskEnd>) -> bool
        ensures { result ≡ is_so self end }
    {
        match self {
            Ending::Any => true,
            Ending::Done => has_done(&end),
            Ending::Trapped => matches!(end, Some(TaskEnd::Trapped { .. })),
            Ending::OverBudget => matches!(end, Some(TaskEnd::OverBudget)),
            Ending::Poisoned => matches!(end, Some(TaskEnd::Poisoned { .. })),
            Ending::Starved => end.is_none(),
        }
    }
}

/// Whether an activation with this end, or none, ran its body.
pub(crate) fn has_run(end: Option<TaskEnd>) -> bool
    ensures { result ≡ has_run end }
{
    match end {
        None | Some(TaskEnd::Poisoned { .. }) => false,
        Some(TaskEnd::Done | TaskEnd::Trapped { .. } | TaskEnd::OverBudget) => true,
    }
}

/// The word for how an activation ended.
pub(crate) fn end_word(end: Option<TaskEnd>) -> &'static [u8]
    ensures { result.now ≡ end_word end }
{
    match end {
        None => b"starved",
        Some(TaskEnd::Done) => b"done",
        Some(TaskEnd::Trapped { .. }) => b"trapped",
        Some(TaskEnd::OverBudget) => b"out of turns",
        Some(TaskEnd::Poisoned { .. }) => b"poisoned",
    }
}
