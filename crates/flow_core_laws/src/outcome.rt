ghost use Rattle.std.specs.Prelude.{◌≡◌, ◌≢◌, []};
ghost use Rattle.flow_core_laws.specs.declared.task_end.TaskEnd.TheVariants.{Done};

use crate::task_end::TaskEnd;
use os_io::List;

/// What an activation came to: its end, and the values that it wrote, which are none but where it is
/// `Done`.
#[derive(Debug, Drop)]
pub struct Outcome {
    pub end: TaskEnd,
    /// The values of its output windows, in clause order and then by position.
    pub outputs: List<i32>,
    ghost only_done: { end ≢ Done → outputs ≡ [] },
}
